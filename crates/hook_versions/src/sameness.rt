//! Whether two objects, or two maps of texts, are the same.
ghost use Rattle.std.specs.Prelude.{◌≡◌, ◌↔◌, map, IsTrue, IfOk};
ghost use Rattle.kj_value.specs.Seen.{json};
ghost use Rattle.kj_value.specs.Texts.{text_pair};
ghost use Rattle.kube_meta.specs.Document.{document};
ghost use Rattle.kube_meta.specs.View.{object_of};
ghost use Rattle.object_reading.specs.Written.{IsWritable};
ghost use Rattle.hook_versions.specs.inner.Sameness.{texts_same};

use kj_value::{JVal, NoMemory, TextField, TextMap, same};
use kube_meta::{Object, copy_object, write_object};
use object_reading::read_back;
use std::alloc::Global;

fn document(alloc: Global, o: &Object) -> Result<JVal, NoMemory>
    ensures { IfOk result (λ j. json j ≡ document (object_of o.now)) }
{
    write_object(alloc, copy_object(alloc, o)?)
}

/// Whether two objects that can be written are the same.
pub(crate) fn is_same(alloc: Global, x: &Object, y: &Object) -> Result<bool, NoMemory>
    requires first { IsWritable (object_of x.now) }
    requires second { IsWritable (object_of y.now) }
    ensures { IfOk result (λ b. IsTrue b ↔ (object_of x.now ≡ object_of y.now)) }
{
    read_back();
    let one = document(alloc, x)?;
    let other = document(alloc, y)?;
    Ok(same(&one, &other))
}

fn alike(xs: &[TextField], ys: &[TextField]) -> bool
    ensures { result ≡ texts_same (map text_pair xs.now) (map text_pair ys.now) }
{
    if xs.len() != ys.len() {
        return false;
    }
    for i in 0..xs.len() {
        let x = &xs[i];
        let y = &ys[i];
        if x.name.as_str() != y.name.as_str() || x.value.as_str() != y.value.as_str() {
            return false;
        }
    }
    true
}

/// Whether two maps have the same texts. It takes no memory.
pub(crate) fn same_texts(xs: &TextMap, ys: &TextMap) -> bool
    ensures { IsTrue result → xs.now ≡ ys.now }
{
    alike(xs.as_slice(), ys.as_slice())
}
