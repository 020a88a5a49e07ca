//! What is shown of the errors of a text.

ghost use Rattle.std.specs.Prelude.{◌≡◌, length, string_bytes, true, IfOk};
ghost use Rattle.isle_base_source.specs.Diagnostic.{report_text};
ghost use Rattle.isle_base_source.specs.Labels.{all_fit};
ghost use Rattle.isle_base.specs.Refusal.{RefusesIn};
ghost use Rattle.isle_base.specs.Diagnostics.{only_file, refusal_text};

use isle_base_source::error::{Error, Errors};
use isle_base_source::files::Files;
use std::alloc::{AllocError, Global};
use std::rc::Rc;

/// Makes the diagnostic of a refused text: the message, and the place with its line.
///
/// `name` stands for the file. The error is one by which `parse`, `next_def` or `format` refused
/// the text, which is file 0.
pub fn diagnostic(alloc: Global, name: &str, text: &str, error: Error) -> Result<String, AllocError>
    requires { RefusesIn 0 (length text.now) error }
    ensures { IfOk result (λ shown. string_bytes shown ≡ refusal_text name.now text.now error) }
{
    shown_errors(alloc, name, text, vec![in alloc; error]?)
}

/// Makes the text that shows errors of one text: the messages, and the places with their lines.
///
/// `name` stands for the file. The spans of the errors lie in the text, which is file 0.
pub fn shown_errors(
    alloc: Global,
    name: &str,
    text: &str,
    errors: Vec<Error>,
) -> Result<String, AllocError>
    requires { all_fit (only_file name.now text.now) errors.items ≡ true }
    ensures { IfOk result (λ shown. string_bytes shown
        ≡ report_text (record { errors = errors.items; files = only_file name.now text.now })) }
{
    let name = String::from_str(alloc, name)?;
    let source = String::from_str(alloc, text)?;
    let files = Files::from_names_and_contents(alloc, vec![in alloc; (name, source)]?)?;
    let errors = Errors::new(errors, Rc::new(alloc, files)?);
    errors.to_string(alloc)
}
