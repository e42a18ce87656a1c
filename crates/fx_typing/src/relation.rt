ghost use Rattle.fx_typing.specs.RelationLaws.{AdmittedElaborates, ElaboratedIsAdmitted};
ghost use Rattle.fx_typing.specs.RelationLaws.{BrokenIsNothing, WholeElaborates, WholeIsAdmitted};
ghost use Rattle.fx_typing.specs.RelationLaws.{WholeIsNothing};

/// A law, and no work: where the types of variables are settled, the relation relates to a formula
/// what the definition that judges admits it as, of each node and of whole formulas.
pub fn admitted_elaborates()
    ensures node { AdmittedElaborates }
    ensures whole { WholeElaborates }
{}

/// A law, and no work: what the relation relates to a formula is what it is admitted as, with the
/// same tree and type. So it relates one thing at most.
pub fn elaborated_is_admitted()
    ensures node { ElaboratedIsAdmitted }
    ensures whole { WholeIsAdmitted }
{}

/// A law, and no work: where a formula is called broken, the relation relates all parts of that
/// node and relates nothing to the node. A whole formula may also be something that isn't wanted.
pub fn broken_elaborates_nothing()
    ensures node { BrokenIsNothing }
    ensures whole { WholeIsNothing }
{}
