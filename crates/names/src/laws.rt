//! Laws of labels: calls that do nothing, each for its contract.

ghost use Rattle.names.specs.Laws.{LabelTellsId};
ghost use Rattle.names.specs.LabelReads.{NameReadsBack};

/// What is called the same in a stack is one id.
pub fn label_tells_id()
    ensures { LabelTellsId }
{}

/// What is written of a name without quotes is the word that asks for it.
pub fn name_reads_back()
    ensures { NameReadsBack }
{}
