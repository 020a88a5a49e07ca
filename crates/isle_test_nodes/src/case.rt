//! Cases.

use std::alloc::{AllocError, Global};
use std::str::Chars;

/// A call with its arguments.
#[derive(Drop)]
pub struct Case {
    pub call: String,
    pub numbers: Vec<usize>,
    pub texts: Vec<String>,
}

impl Case {
    /// Parses the line of a case. Words that are neither numbers nor in quotes are skipped.
    pub fn new(alloc: Global, line: &str) -> Result<Case, AllocError> {
        let (call, rest) = line.split_once(' ').unwrap_or((line, ""));
        let mut case = Case {
            call: call.to_string(alloc)?,
            numbers: Vec::new(alloc),
            texts: Vec::new(alloc),
        };
        case.push_parts(alloc, rest)?;
        Ok(case)
    }

    /// Adds the numbers and texts of a line, after its call.
    fn push_parts(&mut self, alloc: Global, line: &str) -> Result<(), AllocError> {
        let mut rest = line;
        for _ in 0..line.len() {
            rest = self.push_part(alloc, rest.trim_start())?;
            if rest.is_empty() {
                break;
            }
        }
        Ok(())
    }

    /// Adds the number or text at the beginning of `rest`, and returns the rest after it.
    fn push_part<'a>(&mut self, alloc: Global, rest: &'a str) -> Result<&'a str, AllocError> {
        if let Some(quoted) = rest.strip_prefix('"') {
            let mut chars = quoted.chars();
            self.texts.push(unquoted(alloc, &mut chars)?)?;
            return Ok(chars.as_str());
        }
        let (word, rest) = rest.split_once(' ').unwrap_or((rest, ""));
        if let Ok(number) = word.parse::<usize>() {
            self.numbers.push(number)?;
        }
        Ok(rest)
    }

    /// The number at this place, or 0.
    pub fn number(&self, place: usize) -> usize {
        self.numbers.get(place).copied().unwrap_or(0)
    }

    /// The numbers from this place on.
    pub fn numbers_from(&self, place: usize) -> &[usize] {
        self.numbers.get(place..).unwrap_or(&[])
    }

    /// The text at this place, or an empty one.
    pub fn text(&self, place: usize) -> &str {
        match self.texts.get(place) {
            Some(text) => text.as_str(),
            None => "",
        }
    }

    /// The texts from this place on.
    pub fn texts_from(&self, place: usize) -> &[String] {
        self.texts.get(place..).unwrap_or(&[])
    }
}

/// Reads up to the closing quote, and past it.
fn unquoted(alloc: Global, chars: &mut Chars) -> Result<String, AllocError> {
    let mut text = String::new(alloc);
    push_unquoted(chars, &mut text)?;
    Ok(text)
}

fn push_unquoted(chars: &mut Chars, text: &mut String) -> Result<(), AllocError> {
    for _ in 0..chars.as_str().len() {
        match chars.next() {
            None | Some('"') => break,
            Some('\\') => text.push(escaped(chars))?,
            Some(char) => text.push(char)?,
        }
    }
    Ok(())
}

/// The character for an escape, after its `\`.
fn escaped(chars: &mut Chars) -> char {
    match chars.next() {
        Some('n') => '\n',
        Some('r') => '\r',
        Some('t') => '\t',
        Some('0') => '\0',
        Some('u') => numbered(chars),
        Some(char) => char,
        None => '\\',
    }
}

/// The character for a hexadecimal number in braces.
fn numbered(chars: &mut Chars) -> char {
    let mut number: u32 = 0;
    for _ in 0..8 {
        match chars.next() {
            Some('}') | None => break,
            Some(char) => {
                if let Some(digit) = char.to_digit(16) {
                    number = number.saturating_mul(16).saturating_add(digit);
                }
            }
        }
    }
    char::from_u32(number).unwrap_or('\u{fffd}')
}
