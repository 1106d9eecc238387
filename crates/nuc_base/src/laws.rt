ghost use Rattle.nuc_base.specs.Laws.{EitherOrder, EveryOrder, LegalKeepsForm};

/// A legal change keeps a tree well formed: a put, a cut, and none.
pub fn legal_keeps_form()
    ensures { LegalKeepsForm }
{}

/// Two legal changes that are apart can be made in either order: each is legal after the other, and both orders give
/// one tree. They are apart where they put nothing at one place, and where neither puts something below an identity
/// that the other moves or cuts.
pub fn either_order()
    ensures { EitherOrder }
{}

/// Changes of different identities, each legal and any two apart, can be made in every order: each is legal in its
/// turn, the tree stays well formed, and all orders give one tree.
pub fn every_order()
    ensures { EveryOrder }
{}
