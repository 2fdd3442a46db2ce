//! What blocks wait on, and how a `case` compares (IEEE 1364-2005, 9.5 and 9.7.2).

ghost use Rattle.std.specs.Prelude.{◌≡◌};
ghost use Rattle.vs_base.specs.Events as spec;

/// Which changes of a signal are an event (IEEE 1364-2005, 9.7.2).
#[derive(Clone, Copy, PartialEq, Eq, Debug)]
pub enum Edge {
    /// Any change.
    Any,
    /// `posedge`
    Posedge,
    /// `negedge`
    Negedge,
}

/// How the labels of a `case` statement are compared (IEEE 1364-2005, 9.5).
#[derive(Clone, Copy, PartialEq, Eq, Debug)]
pub enum CaseKind {
    /// `case`: bits as written
    Exact,
    /// `casez`: z on either side is no matter
    CaseZ,
    /// `casex`: x and z on either side are no matter
    CaseX,
}

impl Edge {
    /// Whether it is one direction alone, `posedge` or `negedge`.
    pub fn is_edge(self) -> bool
        ensures { result ≡ spec.is_edge self }
    {
        match self {
            Edge::Any => false,
            Edge::Posedge | Edge::Negedge => true,
        }
    }
}
