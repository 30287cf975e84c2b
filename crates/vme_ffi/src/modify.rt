//! The functions of read-modify-write cycles.
ghost use Rattle.std.specs.Prelude.{◌≡◌, length, IsTrue, IsFalse};
ghost use Rattle.vme_cycle.specs.declared.fault.CycleFault.TheVariants.{BadCount};
ghost use Rattle.vme_cycle.specs.Functions.{value, has_len};
ghost use Rattle.vme_c_types.specs.Data.{datum_of, datum_struct, modify_of};
ghost use Rattle.vme_c_types.specs.Results.{ok, refusal_number};
ghost use Rattle.vme_ffi.specs.Requests.{function_of};

use vme_c_types::{BAD_COUNT, OK, VmeDatum, VmeModify, datum_from, datum_of, modify_of};
use vme_cycle::Modify;

/// The function of a cycle, if it is a read-modify-write.
pub(crate) fn function_of(f: &VmeModify) -> Option<Modify>
    ensures { result ≡ function_of f.now }
{
    if f.function == 0 {
        None
    } else {
        Some(modify_of(f))
    }
}

/// Writes the bytes that a function puts in place of the old ones, or returns K8 if its operands
/// have another length.
#[unsafe(no_mangle)]
pub extern "C" fn vme_modify_value(f: &VmeModify, old: &VmeDatum, out: &mut VmeDatum) -> u8
    ensures value { IsTrue (has_len (modify_of f.now) (length (datum_of old.now))) →
        (result ≡ ok) × (datum_of out.new ≡ value (modify_of f.now) (datum_of old.now)) }
    ensures exact { IsTrue (has_len (modify_of f.now) (length (datum_of old.now))) →
        out.new ≡ datum_struct (value (modify_of f.now) (datum_of old.now)) }
    ensures other_len { IsFalse (has_len (modify_of f.now) (length (datum_of old.now))) →
        (result ≡ refusal_number BadCount) × (out.new ≡ out.old) }
{
    let f = modify_of(f);
    let old = datum_of(old);
    if !f.has_len(old.len() as u8) {
        return BAD_COUNT;
    }
    *out = datum_from(f.value(&old).as_slice());
    OK
}
