//! The rules of elaboration, and their numbers.

ghost use Rattle.std.specs.Prelude.{◌≡◌};
ghost use Rattle.vs_const.specs.Rules.{is_of_signal, rule_number};

/// A rule that a text may break when it is elaborated.
#[derive(Clone, Copy, PartialEq, Eq, Debug)]
pub enum Rule {
    /// A signal is named where a constant is needed (IEEE 1364-2005, 4.10).
    NotConstant,
    /// A constant has an unknown bit where a number is needed.
    UnknownConstant,
    /// There is no module of the top's name.
    NoTop,
    /// A second module has this name (12.1).
    DuplicateModule,
    /// An instance is of no module (12.1.2).
    UnknownModule,
    /// The name has no declaration.
    UnknownName,
    /// A second declaration, scope, connection or override has this name.
    DuplicateName,
    /// A bound, length, width or count is out of range.
    BadRange,
    /// Connections or overrides by order are too few or too many (12.2.2, 12.3.5).
    PortCount,
    /// There is no port or parameter of this name.
    UnknownPort,
    /// Instances are nested more than 32 deep.
    InstanceDepth,
    /// There are more than 4,096 instances.
    TooManyInstances,
    /// Generate loops take more turns than their limits (12.4.1).
    GenerateTurns,
    /// A name of another kind stands here.
    WrongKind,
    /// All signals have more than 1,048,576 bits.
    TooManyBits,
    /// There are more than 65,536 assigns and blocks.
    TooManyProcesses,
    /// A loop takes more than 4,096 turns, or all loops together make more than 1,048,576 copies of statements (9.6).
    LoopTurns,
    /// An integer that is no variable is named outside its loops, or an integer is assigned within one, heads a loop within its own, or heads loops of two processes (9.6).
    LoopVariable,
    /// A function names what it may not, or a call has another number of arguments than the function has inputs (10.4.4).
    FunctionRule,
    /// A function is called by itself, or by one that is declared before it (10.4.1).
    Recursion,
}

impl Rule {
    /// Its number, from 30 to 49. Of two rules that are broken at one place the one with the lesser number is told.
    pub fn number(self) -> u32
        ensures { result ≡ rule_number self }
    {
        match self {
            Rule::NotConstant => 30,
            Rule::UnknownConstant => 31,
            Rule::NoTop => 32,
            Rule::DuplicateModule => 33,
            Rule::UnknownModule => 34,
            Rule::UnknownName => 35,
            Rule::DuplicateName => 36,
            Rule::BadRange => 37,
            Rule::PortCount => 38,
            Rule::UnknownPort => 39,
            Rule::InstanceDepth => 40,
            Rule::TooManyInstances => 41,
            Rule::GenerateTurns => 42,
            Rule::WrongKind => 43,
            Rule::TooManyBits => 44,
            Rule::TooManyProcesses => 45,
            Rule::LoopTurns => 46,
            Rule::LoopVariable => 47,
            Rule::FunctionRule => 48,
            Rule::Recursion => 49,
        }
    }

    /// Whether it is that a constant names no signal.
    pub(crate) fn is_of_signal(self) -> bool
        ensures { result ≡ is_of_signal self }
    {
        matches!(self, Rule::NotConstant)
    }
}
