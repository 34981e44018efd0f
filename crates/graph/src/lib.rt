// Rows that read rows: what a ring is, and the order in which rows are placed.
// It promises that the order leaves a row out exactly where there is a ring, and that what a row reads stands before
// it; nothing runs here.
// It stands on `ground`; placing, evaluation and translation stand above it.
#![tactic(auto)]
