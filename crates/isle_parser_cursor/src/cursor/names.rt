//! Identifiers.
#![tactic(auto, unfolding(crate::specs::NameReaders::name, crate::specs::NameReaders::optional_name, crate::specs::NameReaders::names, crate::specs::Reading::in_parentheses, crate::specs::NameReaders::head_inside))]

ghost use Rattle.std.specs.Prelude.{◌≡◌};
ghost use Rattle.isle_ast_names.specs.Identifier.{is_identifier};
ghost use Rattle.isle_ast_names.specs.TreeView.{name_of, names_of, optional_name_of};
ghost use Rattle.isle_parser_cursor.specs.Outcomes.{IsPlace, PassesOrRefuses, ReadsOff, source};
ghost use Rattle.isle_parser_cursor.specs.NameReaders.{name, names, optional_name, head_inside};
ghost use Rattle.isle_parser_cursor.specs.Reading.{at_rparen, in_parentheses, many};

use crate::cursor::{Cursor, Stop, refuse};
use isle_ast_names::Ident;
use isle_ast_names::identifier::{begins_identifier, is_identifier};
use isle_base::lexer::Pos;
use std::alloc::{AllocError, Global};

impl<'src> Cursor<'src> {
    /// Rejects the symbol at this place if its text is not an identifier.
    pub fn check_identifier(&self, alloc: Global, place: Pos, text: &str) -> Result<(), Stop>
        requires { IsPlace (source self.now) place }
        ensures { PassesOrRefuses (is_identifier text.now) (source self.now) result }
    {
        if is_identifier(text) {
            return Ok(());
        }
        Err(refuse(place, identifier_message(alloc, text)))
    }

    /// Parses an identifier.
    pub fn parse_ident(&mut self, alloc: Global) -> Result<Ident, Stop>
        ensures { ReadsOff name_of name self.old result self.new }
    {
        let place = self.place();
        let pos = self.pos();
        let text = self.expect_word(alloc)?;
        self.check_identifier(alloc, place, text)?;
        Ok(Ident(String::from_str(alloc, text)?, pos))
    }

    /// Parses an identifier if a symbol is ahead. A symbol that is not an identifier is rejected at
    /// this place, as an invalid `what`.
    pub fn parse_optional_ident(
        &mut self,
        alloc: Global,
        place: Pos,
        what: &str,
    ) -> Result<Option<Ident>, Stop>
        requires { IsPlace (source self.old) place }
        ensures { ReadsOff optional_name_of optional_name self.old result self.new }
    {
        if !self.is_sym() {
            return Ok(None);
        }
        let pos = self.pos();
        let text = self.expect_word(alloc)?;
        if is_identifier(text) {
            return Ok(Some(Ident(String::from_str(alloc, text)?, pos)));
        }
        let message = identifier_message(alloc, text)?;
        Err(self.refuse_at(place, format!(in alloc; "Invalid {what}: {message}")))
    }

    /// Parses identifiers, up to the closing parenthesis.
    pub fn parse_ident_list(&mut self, alloc: Global) -> Result<Vec<Ident>, Stop>
        ensures { ReadsOff (λ is. names_of is.items) (many at_rparen name) self.old result
            self.new }
    {
        let mut idents = Vec::new(alloc);
        while !self.is_rparen() {
            idents.push(self.parse_ident(alloc)?)?;
        }
        Ok(idents)
    }

    /// Parses identifiers in parentheses.
    pub fn parse_idents(&mut self, alloc: Global) -> Result<Vec<Ident>, Stop>
        ensures { ReadsOff (λ is. names_of is.items) names self.old result self.new }
    {
        self.expect_lparen(alloc)?;
        let idents = self.parse_ident_list(alloc)?;
        self.close(alloc, idents)
    }

    /// Parses a name and further names, in parentheses.
    pub fn parse_headed(&mut self, alloc: Global) -> Result<(Ident, Vec<Ident>), Stop>
        ensures { ReadsOff (λ h. (name_of h.0, names_of h.1.items)) (in_parentheses head_inside)
            self.old result self.new }
    {
        self.expect_lparen(alloc)?;
        let name = self.parse_ident(alloc)?;
        let names = self.parse_ident_list(alloc)?;
        self.close(alloc, (name, names))
    }
}

/// The message for a text that is not an identifier.
fn identifier_message(alloc: Global, text: &str) -> Result<String, AllocError> {
    match text.chars().next() {
        None => String::from_str(alloc, "empty symbol"),
        Some(first) if !begins_identifier(first) => {
            format!(in alloc; "Identifier '{text}' does not start with letter or _ or $")
        }
        Some(_) => {
            format!(in alloc;
                "Identifier '{text}' contains invalid character (not a-z, A-Z, 0-9, _, ., $)"
            )
        }
    }
}
