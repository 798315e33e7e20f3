// A table may be read by several workers at once: the check of this call is the proof.
use crate::FormulaTable;

fn shares<T: Send + Sync>(_: &T) {}

fn table_is_shared(table: &FormulaTable) {
    shares(table);
}
