mod literals;
mod places;
mod prefixes;
mod readings;

use crate::TextFault;
use dl_base::Name;

/// Whether the answer is the text behind `= `, or the fault of this name.
pub fn gives(answer: Result<Name, TextFault>, want: &str) -> bool {
    match answer {
        Ok(name) => match want.strip_prefix("= ") {
            Some(text) => name.as_slice() == text.as_bytes(),
            None => false,
        },
        Err(fault) => match fault.kind() {
            Some(kind) => kind.name() == want,
            None => false,
        },
    }
}
