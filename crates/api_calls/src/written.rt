//! The object of a stored text.
ghost use Rattle.std.specs.Prelude.{◌≡◌, IfOk};
ghost use Rattle.kube_meta.specs.View.{ObjectView, object_of};
ghost use Rattle.api_calls.specs.Spelled.{IsTextOf};

use crate::versions::OBJECT_LEVELS;
use kj_value::{JsonFault, NoMemory, one_reading, read, text_reads};
use kube_meta::Object;
use object_reading::read_written;
use std::alloc::Global;

/// The object whose document has this compact text.
pub fn read_form(alloc: Global, bytes: &[u8]) -> Result<Object, NoMemory>
    requires { (x : ObjectView) × IsTextOf x bytes.now }
    ensures { (x : ObjectView) → IsTextOf x bytes.now → IfOk result (λ y. object_of y ≡ x) }
{
    text_reads();
    one_reading();
    match read(alloc, bytes, OBJECT_LEVELS) {
        Ok(document) => read_written(alloc, document),
        Err(JsonFault::NoMemory) => Err(NoMemory),
        Err(JsonFault::NotJson) => unreachable!(),
        Err(JsonFault::TooDeep) => unreachable!(),
        Err(JsonFault::NotWhole) => unreachable!(),
    }
}
