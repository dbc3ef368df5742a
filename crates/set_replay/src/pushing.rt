//! Pushes that an entry tells.

ghost use Rattle.std.specs.Prelude.{IfOk};
ghost use Rattle.set_replay.specs.Pushing.{PushJudged, HasFreeRoom};

use lru_lists::ListSet;
use map_types::NoMemory;
use percpu_values::BoxedBody;
use row_list::Rows;
use std::alloc::Global;

/// Whether an element is listed in a set. Then it is freed there.
pub(crate) fn pushes<S: Rows>(
    alloc: Global,
    set: &mut ListSet<S>,
    element: u32,
) -> Result<bool, NoMemory>
    requires { HasFreeRoom set.old }
    ensures { IfOk result (PushJudged element set.old set.new) }
{
    match set.take_off(element) {
        None => Ok(false),
        Some(_) => {
            let body = BoxedBody::create(alloc, element, 0, 0, 0)?;
            set.free_push(body);
            Ok(true)
        }
    }
}
