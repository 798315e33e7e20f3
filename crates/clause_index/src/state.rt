// What a step says of its own state: it is there only where the one before it is, its entries have their
// gates, and its requests are linked to that one.
ghost use Rattle.std.specs.Prelude.{◌≡◌, ◌<◌, ◌≤◌, length};
ghost use Rattle.enc_layout.specs.Letters.{Fits};
ghost use Rattle.enc_layout.specs.Clauses.{layout_of, state_clauses};
ghost use Rattle.clause_index.specs.Literals.{literals};
ghost use Rattle.clause_index.specs.Rows.{row_at};
ghost use Rattle.clause_index.specs.Counts.{sizes_of};
ghost use Rattle.clause_index.specs.Samples.{AreSamples};

use crate::found::Found;
use crate::gate::gates;
use crate::link::{chain, links};
use crate::samples::Samples;
use crate::sizes::Sizes;
use enc_layout::Layout;
use ltl_closure::Closure;

/// A clause of those that speak of the state of the step.
pub fn states(
    closure: &Closure<'_>,
    layout: &Layout,
    sizes: Sizes,
    samples: &Samples,
    step: u32,
    index: u64,
) -> Found
    requires own { layout.now ≡ layout_of closure.now }
    requires samples { AreSamples closure.now.entries samples.now }
    requires sizes { sizes ≡ sizes_of closure.now.formula closure.now.kind }
    requires few { step ≤ 1000 }
    requires fits { Fits layout.now step }
    requires within { index < length (state_clauses closure.now.formula step) }
    ensures { literals result ≡ row_at layout.now (state_clauses closure.now.formula step) index }
{
    let first = sizes.chain(step);
    if index < first {
        return chain(layout, step, index);
    }
    let behind = index - first;
    if behind < sizes.gates as u64 {
        return gates(closure, layout, samples, step, behind);
    }
    links(closure, layout, step, behind - sizes.gates as u64)
}
