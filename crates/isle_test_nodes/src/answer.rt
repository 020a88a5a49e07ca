//! Answers of cases.

use isle_syntax::lexer::Fault;
use isle_syntax::printer::PrintFault;
use std::alloc::{AllocError, Global};
use std::fmt::Debug;

/// The answer of a case. It is no answer unless it is whole: memory may have run out.
#[derive(Drop)]
pub struct Answer {
    pub text: String,
    pub is_whole: bool,
}

impl Answer {
    pub fn new(alloc: Global) -> Answer {
        Answer {
            text: String::new(alloc),
            is_whole: true,
        }
    }

    pub fn put(&mut self, text: &str) {
        let put = self.text.push_str(text);
        self.is_whole &= put.is_ok();
    }

    /// Adds a value as Debug shows it.
    pub fn show<T: Debug>(&mut self, value: &T) {
        let shown = write!(self.text, "{value:?}");
        self.is_whole &= shown.is_ok();
    }

    /// Adds a value as Debug shows it, unless memory ran out.
    pub fn show_made<T: Debug>(&mut self, made: &Result<T, AllocError>) {
        match made {
            Ok(value) => self.show(value),
            Err(_) => self.is_whole = false,
        }
    }

    /// Adds a text, unless memory ran out.
    pub fn put_made(&mut self, made: &Result<String, AllocError>) {
        match made {
            Ok(text) => self.put(text),
            Err(_) => self.is_whole = false,
        }
    }

    /// Adds the text of another answer as Debug shows it.
    pub fn show_text(&mut self, other: &Answer) {
        self.is_whole &= other.is_whole;
        self.show(&other.text);
    }

    /// Adds a value as Debug shows it in `Ok`.
    pub fn show_ok<T: Debug>(&mut self, value: &T) {
        self.put("Ok(");
        self.show(value);
        self.put(")");
    }

    pub fn show_fault(&mut self, fault: &Fault) {
        self.is_whole &= !matches!(fault, Fault::Memory);
        self.show(fault);
    }

    /// Adds a fault as Debug shows it in `Err`.
    pub fn show_error(&mut self, fault: &Fault) {
        self.put("Err(");
        self.show_fault(fault);
        self.put(")");
    }

    /// Adds the answer of a call.
    pub fn show_answer<T: Debug>(&mut self, answer: &Result<T, Fault>) {
        self.is_whole &= !matches!(answer, Err(Fault::Memory));
        self.show(answer);
    }

    pub fn show_print_fault(&mut self, fault: &PrintFault) {
        self.is_whole &= !matches!(fault, PrintFault::Memory);
        self.show(fault);
    }

    /// Adds the answer of a call that prints.
    pub fn show_print<T: Debug>(&mut self, answer: &Result<T, PrintFault>) {
        self.is_whole &= !matches!(answer, Err(PrintFault::Memory));
        self.show(answer);
    }
}

/// Returns whether the copy of a value is equal to it; the answer is not whole if it has no copy.
pub fn is_copied<T: Clone + PartialEq + Drop>(value: &T, out: &mut Answer) -> bool {
    let copy: Result<T, AllocError> = value.clone();
    match copy {
        Ok(copy) => {
            let is_equal = copy == *value;
            drop(copy);
            is_equal
        }
        Err(_) => {
            out.is_whole = false;
            false
        }
    }
}
