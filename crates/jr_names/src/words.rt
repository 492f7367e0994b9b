//! Names that mean something already.

ghost use Rattle.std.specs.Prelude.{◌≡◌};
ghost use Rattle.jr_typing_rules.specs.Exceptions as spec;
ghost use Rattle.jr_typing_rules.specs.Resolution as resolution;

use jr_base::Fault;

/// The exception of that name, which a catch may take and a `throw` make.
#[tactic(auto, unfolding(jr_typing_rules::specs::Exceptions::fault_named))]
pub fn fault_named(text: &[u8]) -> Option<Fault>
    ensures { result ≡ spec.fault_named text.now }
{
    if text == b"Exception".as_slice() {
        Some(Fault::Exception)
    } else if text == b"RuntimeException".as_slice() {
        Some(Fault::RuntimeException)
    } else if text == b"InterruptedException".as_slice() {
        Some(Fault::InterruptedException)
    } else if text == b"ArithmeticException".as_slice() {
        Some(Fault::ArithmeticException)
    } else if text == b"NullPointerException".as_slice() {
        Some(Fault::NullPointerException)
    } else if text == b"NegativeArraySizeException".as_slice() {
        Some(Fault::NegativeArraySizeException)
    } else if text == b"IllegalMonitorStateException".as_slice() {
        Some(Fault::IllegalMonitorStateException)
    } else if text == b"IndexOutOfBoundsException".as_slice() {
        Some(Fault::IndexOutOfBoundsException)
    } else if text == b"IllegalArgumentException".as_slice() {
        Some(Fault::IllegalArgumentException)
    } else if text == b"ArrayIndexOutOfBoundsException".as_slice() {
        Some(Fault::ArrayIndexOutOfBoundsException)
    } else if text == b"IllegalThreadStateException".as_slice() {
        Some(Fault::IllegalThreadStateException)
    } else {
        None
    }
}

/// Whether it is a name that no class of a source may have.
#[tactic(auto, unfolding(jr_typing_rules::specs::Exceptions::is_reserved))]
pub fn is_reserved(text: &[u8]) -> bool
    ensures { result ≡ spec.is_reserved text.now }
{
    text == b"Object".as_slice()
        || text == b"Thread".as_slice()
        || text == b"Runnable".as_slice()
        || text == b"String".as_slice()
        || text == b"System".as_slice()
        || fault_named(text).is_some()
}

/// Whether it is a name that no method may have: each object has a method of that name, or each thread (JLS 17.2).
#[tactic(auto, unfolding(jr_typing_rules::specs::Resolution::is_library_method))]
pub fn is_library_method(is_thread: bool, text: &[u8]) -> bool
    ensures { result ≡ resolution.is_library_method is_thread text.now }
{
    text == b"wait".as_slice()
        || text == b"notify".as_slice()
        || text == b"notifyAll".as_slice()
        || is_thread && (text == b"start".as_slice() || text == b"join".as_slice())
}
