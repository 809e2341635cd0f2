//! Where in a template text an object stands.

use json::{Reader, Scratch, Token};
use std::alloc::{AllocError, Global};

/// A line and a column in bytes, both from 1.
#[derive(Clone, Copy, Debug, PartialEq, Eq)]
pub struct LineColumn {
    pub line: usize,
    pub column: usize,
}

impl LineColumn {
    /// Those of the byte with so many before it.
    pub fn of_offset(text: &[u8], offset: usize) -> LineColumn {
        let mut place = LineColumn { line: 1, column: 1 };
        for byte in &text[..offset.min(text.len())] {
            if *byte == b'\n' {
                place.line = place.line.saturating_add(1);
                place.column = 1;
            } else {
                place.column = place.column.saturating_add(1);
            }
        }
        place
    }
}

/// What a bracket opens.
#[derive(Clone, Copy, PartialEq, Eq)]
enum Opened {
    /// The object that the text is.
    Top,
    /// The list of the templates.
    Templates,
    /// A template or an instruction, before its list of instructions and behind it.
    Object { has_list: bool },
    /// A list of instructions.
    Instructions,
    /// Anything else.
    Other,
}

/// The key behind which a value stands.
#[derive(Clone, Copy, PartialEq, Eq)]
enum Behind {
    Templates,
    Instructions,
    Other,
}

/// Goes over the tokens of a text, and counts templates and instructions as they are numbered.
#[derive(Drop)]
struct Search {
    open: Vec<Opened>,
    behind: Behind,
    template: u32,
    instruction: u32,
    /// Whether two lists stand in one object, so that no number is known.
    is_lost: bool,
}

impl Search {
    fn new(alloc: Global) -> Search {
        Search {
            open: Vec::new(alloc),
            behind: Behind::Other,
            template: 0,
            instruction: 0,
            is_lost: false,
        }
    }

    /// What the innermost open bracket is.
    fn inner(&self) -> Option<Opened> {
        self.open.last().copied()
    }

    /// Counts a value that begins: one of a list of templates or instructions.
    fn count(&mut self) {
        match self.inner() {
            Some(Opened::Templates) => {
                self.template = self.template.saturating_add(1);
                self.instruction = 0;
            }
            Some(Opened::Instructions) => self.instruction = self.instruction.saturating_add(1),
            _ => {}
        }
    }

    /// What a brace opens here.
    fn object(&self) -> Opened {
        match self.inner() {
            None => Opened::Top,
            Some(Opened::Templates | Opened::Instructions) => Opened::Object { has_list: false },
            _ => Opened::Other,
        }
    }

    /// What a bracket of a list opens here.
    fn list(&mut self) -> Opened {
        match (self.inner(), self.behind) {
            (Some(Opened::Top), Behind::Templates) => {
                self.is_lost = self.is_lost || self.template > 0;
                Opened::Templates
            }
            (Some(Opened::Object { has_list }), Behind::Instructions) => {
                self.is_lost = self.is_lost || has_list;
                self.open.pop();
                Opened::Instructions
            }
            _ => Opened::Other,
        }
    }

    /// Opens a list. (The object around a list of instructions is put back, with its list.)
    fn open_list(&mut self) -> Result<(), AllocError> {
        let opened = self.list();
        if opened == Opened::Instructions {
            self.open.push(Opened::Object { has_list: true })?;
        }
        self.open.push(opened)?;
        Ok(())
    }

    /// Takes a token, and answers whether a value begins with it.
    fn take(&mut self, token: Token<'_>) -> Result<bool, AllocError> {
        let begins = !matches!(
            token,
            Token::Key(_) | Token::EndObject | Token::EndArray | Token::Bad
        );
        if begins {
            self.count();
        }
        match token {
            Token::BeginObject => {
                let opened = self.object();
                self.open.push(opened)?;
            }
            Token::BeginArray => self.open_list()?,
            Token::EndObject | Token::EndArray => {
                self.open.pop();
            }
            _ => {}
        }
        self.behind = match token {
            Token::Key("templates") => Behind::Templates,
            Token::Key("instructions") => Behind::Instructions,
            _ => Behind::Other,
        };
        Ok(begins)
    }
}

/// Where in a template text the object stands that a fault names: the template's place in the list and the number of the
/// instruction in it, as they are written, both from 1; 0 for what is around them. None where it is not there, or an object
/// has two lists.
pub fn place_in(
    alloc: Global,
    text: &str,
    template: u32,
    instruction: u32,
) -> Result<Option<LineColumn>, AllocError> {
    let mut scratch = Scratch::new(alloc);
    let mut reader = Reader::new(text, &mut scratch)?;
    let mut search = Search::new(alloc);
    let mut found = None;
    for _ in 0..=text.len() {
        let offset = reader.offset();
        let Some(token) = reader.next() else {
            break;
        };
        let begins = search.take(token)?;
        if begins
            && found.is_none()
            && search.template == template
            && search.instruction == instruction
        {
            found = Some(LineColumn::of_offset(text.as_bytes(), offset));
        }
    }
    Ok(if search.is_lost { None } else { found })
}
