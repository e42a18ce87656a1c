//! What a keeper over a connection keeps once the changes of a transaction are written.
ghost use Rattle.store_model.specs.Laws.{CommitsShaped, CommitsTold, RestoresKept};

/// A law, and no work: the statements of a plan have their meaning, and what is kept after them is
/// what was told before them.
pub fn commits_told()
    ensures { CommitsTold }
{}

/// A law, and no work: the tables are in order after them, as a keeper knows them that has changed
/// nothing since.
pub fn commits_shaped()
    ensures { CommitsShaped }
{}

/// A law, and no work: without the changes the tables are those that are kept, and so they are
/// told.
pub fn restores_kept()
    ensures { RestoresKept }
{}
