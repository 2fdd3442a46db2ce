//! Laws of the definitions, each the clause of a function with an empty body.

ghost use Rattle.vs_scope.specs.Laws.{BlocksAreShaped, ModulesAreShaped, ViewsAreFair};
ghost use Rattle.vs_scope.specs.Surveys.{SurveysAreOfParts};

/// Whatever is seen at a place of the text, each value there has 1 to 64 bits and a range of as many.
pub fn fair_law()
    ensures { ViewsAreFair }
{}

/// Every declaration of a module's tree, and of a generate block's items, has ranges, addresses and values that are expressions of the
/// grammar.
pub fn shaped_law()
    ensures modules { ModulesAreShaped }
    ensures blocks { BlocksAreShaped }
{}

/// The survey of a scope is of the parts that `survey` finds and of what its items say.
pub fn survey_law()
    ensures { SurveysAreOfParts }
{}
