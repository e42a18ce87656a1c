ghost use Rattle.fx_infer.specs.Depths.{EntriesAreNoDeeper, TreesAreNoDeeper};

/// A law, and no work: a tree has no more nodes above one another than the grammar counts levels in
/// the text that it is read from.
pub fn no_deeper()
    ensures formula { TreesAreNoDeeper }
    ensures named { EntriesAreNoDeeper }
{}
