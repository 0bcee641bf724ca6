// Colours, modifiers and styles.
ghost use Rattle.std.specs.Prelude.{⊤, ◌≡◌, ◌^◌, ◌<◌, [], ◌∷◌, codes, Some};
ghost use Rattle.term_text.specs.Style.{patch, no_style, reset_style, with_modifier, without_modifier, less, with_all};

use bitflags::{Flag, Flags, bitflag_items};

/// A colour of a terminal: its own (`Reset`), one of sixteen, one by red, green and blue, or one of 256 by its number.
#[derive(Clone, Copy, Debug, PartialEq, Eq, Default)]
pub enum Color {
    #[default]
    Reset,
    Black,
    Red,
    Green,
    Yellow,
    Blue,
    Magenta,
    Cyan,
    Gray,
    DarkGray,
    LightRed,
    LightGreen,
    LightYellow,
    LightBlue,
    LightMagenta,
    LightCyan,
    White,
    Rgb(u8, u8, u8),
    Indexed(u8),
}

/// A set of the nine modifiers of a terminal.
#[derive(Clone, Copy, Debug, PartialEq, Eq, Default)]
pub struct Modifier(u16);

bitflag_items! {
    impl Modifier: u16 {
        const BOLD = 1;
        const DIM = 2;
        const ITALIC = 4;
        const UNDERLINED = 8;
        const SLOW_BLINK = 16;
        const RAPID_BLINK = 32;
        const REVERSED = 64;
        const HIDDEN = 128;
        const CROSSED_OUT = 256;
    }
}

impl Flags for Modifier {
    type Bits = u16;

    ghost exact = { ⊤ };

    ghost table = { (codes "BOLD", 1) ∷ (codes "DIM", 2) ∷ (codes "ITALIC", 4) ∷ (codes "UNDERLINED", 8)
        ∷ (codes "SLOW_BLINK", 16) ∷ (codes "RAPID_BLINK", 32) ∷ (codes "REVERSED", 64)
        ∷ (codes "HIDDEN", 128) ∷ (codes "CROSSED_OUT", 256) ∷ [] };

    ghost set_of = { λ p. p.0 };

    fn flags<'a>() -> &'a [Flag<Modifier>] {
        Modifier::FLAGS
    }

    fn bits(&self) -> u16 {
        self.0
    }

    fn from_bits_retain(bits: u16) -> Modifier {
        Modifier(bits)
    }
}

/// What a style sets: two colours, where they are set, and the modifiers that it adds and takes away.
#[derive(Clone, Copy, Debug, PartialEq, Eq, Default)]
pub struct Style {
    pub fg: Option<Color>,
    pub bg: Option<Color>,
    pub add: Modifier,
    pub sub: Modifier,
}

impl Style {
    /// Sets nothing.
    pub fn new() -> Style
        ensures { result ≡ no_style }
    {
        Style {
            fg: None,
            bg: None,
            add: Modifier::empty(),
            sub: Modifier::empty(),
        }
    }

    /// Sets both colours to the terminal's own, and takes all modifiers away.
    pub fn reset() -> Style
        ensures { result ≡ reset_style }
    {
        Style {
            fg: Some(Color::Reset),
            bg: Some(Color::Reset),
            add: Modifier::empty(),
            sub: Modifier::all(),
        }
    }

    /// Sets the foreground.
    pub fn fg(self, color: Color) -> Style
        ensures { result ≡ record self { fg = Some color } }
    {
        Style {
            fg: Some(color),
            ..self
        }
    }

    /// Sets the background.
    pub fn bg(self, color: Color) -> Style
        ensures { result ≡ record self { bg = Some color } }
    {
        Style {
            bg: Some(color),
            ..self
        }
    }

    /// Adds the modifiers, and no longer takes them away.
    pub fn add_modifier(self, modifier: Modifier) -> Style
        ensures { result ≡ with_modifier self modifier }
    {
        Style {
            add: self.add.union(modifier),
            sub: self.sub.difference(modifier),
            ..self
        }
    }

    /// Takes the modifiers away, and no longer adds them.
    pub fn remove_modifier(self, modifier: Modifier) -> Style
        ensures { result ≡ without_modifier self modifier }
    {
        Style {
            add: self.add.difference(modifier),
            sub: self.sub.union(modifier),
            ..self
        }
    }

    /// This style with the other over it: what the other sets wins.
    pub fn patch(self, other: Style) -> Style
        ensures { result ≡ patch self other }
    {
        Style {
            fg: other.fg.or(self.fg),
            bg: other.bg.or(self.bg),
            add: self.add.difference(other.sub).union(other.add),
            sub: self.sub.difference(other.add).union(other.sub),
        }
    }

    /// Adds `BOLD`.
    pub fn bold(self) -> Style
        ensures { result ≡ with_modifier self Modifier.BOLD }
    {
        self.add_modifier(Modifier::BOLD)
    }

    /// Adds `DIM`.
    pub fn dim(self) -> Style
        ensures { result ≡ with_modifier self Modifier.DIM }
    {
        self.add_modifier(Modifier::DIM)
    }

    /// Adds `ITALIC`.
    pub fn italic(self) -> Style
        ensures { result ≡ with_modifier self Modifier.ITALIC }
    {
        self.add_modifier(Modifier::ITALIC)
    }

    /// Adds `UNDERLINED`.
    pub fn underlined(self) -> Style
        ensures { result ≡ with_modifier self Modifier.UNDERLINED }
    {
        self.add_modifier(Modifier::UNDERLINED)
    }

    /// Adds `CROSSED_OUT`.
    pub fn crossed_out(self) -> Style
        ensures { result ≡ with_modifier self Modifier.CROSSED_OUT }
    {
        self.add_modifier(Modifier::CROSSED_OUT)
    }

    /// Sets the foreground `Red`.
    pub fn red(self) -> Style
        ensures { result ≡ record self { fg = Some Color.Red } }
    {
        self.fg(Color::Red)
    }

    /// Sets the foreground `Green`.
    pub fn green(self) -> Style
        ensures { result ≡ record self { fg = Some Color.Green } }
    {
        self.fg(Color::Green)
    }

    /// Sets the foreground `Yellow`.
    pub fn yellow(self) -> Style
        ensures { result ≡ record self { fg = Some Color.Yellow } }
    {
        self.fg(Color::Yellow)
    }

    /// Sets the foreground `Blue`.
    pub fn blue(self) -> Style
        ensures { result ≡ record self { fg = Some Color.Blue } }
    {
        self.fg(Color::Blue)
    }

    /// Sets the foreground `Magenta`.
    pub fn magenta(self) -> Style
        ensures { result ≡ record self { fg = Some Color.Magenta } }
    {
        self.fg(Color::Magenta)
    }

    /// Sets the foreground `Cyan`.
    pub fn cyan(self) -> Style
        ensures { result ≡ record self { fg = Some Color.Cyan } }
    {
        self.fg(Color::Cyan)
    }

    /// Sets the foreground `White`.
    pub fn white(self) -> Style
        ensures { result ≡ record self { fg = Some Color.White } }
    {
        self.fg(Color::White)
    }

    /// Sets the foreground `DarkGray`.
    pub fn dark_gray(self) -> Style
        ensures { result ≡ record self { fg = Some Color.DarkGray } }
    {
        self.fg(Color::DarkGray)
    }

    /// Sets the foreground `LightYellow`.
    pub fn light_yellow(self) -> Style
        ensures { result ≡ record self { fg = Some Color.LightYellow } }
    {
        self.fg(Color::LightYellow)
    }

    /// Sets the foreground `LightBlue`.
    pub fn light_blue(self) -> Style
        ensures { result ≡ record self { fg = Some Color.LightBlue } }
    {
        self.fg(Color::LightBlue)
    }

    /// Sets the foreground `LightCyan`.
    pub fn light_cyan(self) -> Style
        ensures { result ≡ record self { fg = Some Color.LightCyan } }
    {
        self.fg(Color::LightCyan)
    }

    /// Sets the background `Cyan`.
    pub fn on_cyan(self) -> Style
        ensures { result ≡ record self { bg = Some Color.Cyan } }
    {
        self.bg(Color::Cyan)
    }

    /// Sets the background `Black`.
    pub fn on_black(self) -> Style
        ensures { result ≡ record self { bg = Some Color.Black } }
    {
        self.bg(Color::Black)
    }
}
