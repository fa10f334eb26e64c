ghost use Rattle.std.specs.Prelude.{◌≡◌};
ghost use Rattle.psa_text.specs.scanner.View.{entity_letters, entity_character};

/// Where in an item the scanner stands: each place is named by what stands before it.
#[derive(Debug, Clone, Copy, PartialEq, Eq, Drop)]
pub enum Place {
    Between,
    /// `<`
    Opened,
    /// `<?` and bytes
    Instruction,
    /// the same and `?`
    Question,
    /// `<!`
    Bang,
    /// `<!-`
    BangDash,
    /// `<!--` and bytes
    Comment,
    /// the same and `-`
    Dash,
    /// the same and `--`
    DashDash,
    /// `<!D` and so many letters of `OCTYPE`
    Word(u8),
    /// `<!DOCTYPE`, a blank and bytes
    Doctype,
    /// `<` and a name
    Name,
    /// a tag's name, attributes, and blanks
    Gap,
    /// the same and `/`
    Slash,
    /// the same and an attribute's name
    AttributeName,
    /// the same and blanks
    AttributeGap,
    /// the same, `=` and blanks
    Equals,
    /// the same, a quote and bytes of the value
    Value,
    /// the same and a part of a reference
    Refer(Reference),
    /// a tag's name and attributes, up to the quote of the last
    Behind,
    /// `</`
    EndOpened,
    /// `</` and a name
    EndName,
    /// the same and blanks
    EndGap,
}

/// The part of a reference that has been read.
#[derive(Debug, Clone, Copy, PartialEq, Eq, Drop)]
pub enum Reference {
    /// `&`
    Ampersand,
    /// `&a`
    LetterA,
    /// the letters that tell the entity, and so many of those behind them
    Named(Entity, u8),
    /// `&#`
    NumberSign,
    /// `&#` and so many digits
    Decimal(u8),
    /// `&#x` and so many hexadecimal digits
    Hexadecimal(u8),
}

/// The five predefined entities (XML 1.0, section 4.6).
#[derive(Debug, Clone, Copy, PartialEq, Eq, Drop)]
pub enum Entity {
    Less,
    Greater,
    Ampersand,
    Quotation,
    Apostrophe,
}

impl Entity {
    /// The letters of its name behind those that tell it: `l`, `g`, `am`, `q` and `ap`.
    pub fn letters(self) -> &'static [u8]
        ensures { result.now ≡ entity_letters self }
    {
        match self {
            Entity::Less | Entity::Greater => b"t",
            Entity::Ampersand => b"p",
            Entity::Quotation => b"uot",
            Entity::Apostrophe => b"os",
        }
    }

    /// The character that it stands for.
    pub fn character(self) -> char
        ensures { result ≡ entity_character self }
    {
        match self {
            Entity::Less => '<',
            Entity::Greater => '>',
            Entity::Ampersand => '&',
            Entity::Quotation => '"',
            Entity::Apostrophe => '\'',
        }
    }
}
