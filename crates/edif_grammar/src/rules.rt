//! The rows of the table of forms.
ghost use Rattle.std.specs.Prelude.{◌≡◌, map};
ghost use Rattle.std.specs.List.{list_any};
ghost use Rattle.edif_spec.specs.Keyword.{row, AnIdentifier, AnInteger, AString, AForm};
ghost use Rattle.edif_spec.specs.Faults.{token_kind};
ghost use Rattle.edif_grammar.specs.Forms.{row_above};
ghost use Rattle.edif_grammar.specs.Rules.{choices, follower, row_of, has_own_kind, choice_fits, one_fits, follows, row_fits, is_plain, is_token};

use edif_spec::Keyword;

/// What may stand as one fixed argument.
#[derive(Clone, Copy)]
pub enum FixedArgument {
    Identifier,
    Integer,
    Text,
    /// A form with this keyword.
    Form(Keyword),
    /// An identifier or a `rename`.
    Name,
    /// An identifier, a `rename` or an `array`.
    BusName,
    /// An identifier or a `member`.
    Bit,
    /// A `true` or a `false`.
    Truth,
    /// An integer or an `e`.
    Number,
    /// A `boolean`, an `integer`, a `number` or a `string`.
    Value,
}

/// What may follow the fixed arguments.
#[derive(Clone, Copy)]
pub enum Inner {
    /// Forms with this keyword.
    Many(Keyword),
    /// One form with this keyword at most.
    Once(Keyword),
}

/// A row of the table.
#[derive(Clone, Copy)]
pub enum Rule {
    /// A form that is not looked into.
    Skips,
    /// The fixed arguments in order, and what may follow.
    Takes(&'static [FixedArgument], &'static [Inner]),
}

/// An argument, as rows tell arguments apart.
#[derive(Clone, Copy)]
pub enum Argument {
    Identifier,
    Integer,
    Text,
    Form(Keyword),
    /// A form without a keyword of the table.
    Strange,
}

/// The table: behind each keyword its fixed arguments in order, and what may follow them.
macro_rules! rows {
    ($then:ident!) => {
        $then! {
            Edif: [Name, Form(K::EdifVersion), Form(K::EdifLevel), Form(K::KeywordMap)]
                [Many(K::Status), Many(K::External), Many(K::Library), Once(K::Design), Many(K::Comment), Many(K::UserData)];
            EdifVersion: [Integer, Integer, Integer] [];
            EdifLevel: [Integer] [];
            KeywordMap: [Form(K::KeywordLevel)] [Many(K::Comment)];
            KeywordLevel: [Integer] [];
            Library: [Name, Form(K::EdifLevel), Form(K::Technology)]
                [Many(K::Status), Many(K::Cell), Many(K::Comment), Many(K::UserData)];
            External: [Name, Form(K::EdifLevel), Form(K::Technology)]
                [Many(K::Status), Many(K::Cell), Many(K::Comment), Many(K::UserData)];
            Cell: [Name, Form(K::CellType)]
                [Many(K::Status), Once(K::View), Many(K::Property), Many(K::Comment), Many(K::UserData)];
            CellType: [Identifier] [];
            View: [Name, Form(K::ViewType), Form(K::Interface)]
                [Many(K::Status), Once(K::Contents), Many(K::Property), Many(K::Comment), Many(K::UserData)];
            ViewType: [Identifier] [];
            Interface: [] [Many(K::Port), Many(K::Property), Many(K::Comment), Many(K::UserData)];
            Port: [BusName]
                [Once(K::Direction), Once(K::Designator), Many(K::Property), Many(K::Comment), Many(K::UserData)];
            Array: [Name, Integer] [];
            Direction: [Identifier] [];
            Designator: [Text] [];
            Owner: [Text] [];
            Contents: [] [Many(K::Instance), Many(K::Net), Many(K::Comment), Many(K::UserData)];
            Instance: [Name, Form(K::ViewRef)]
                [Once(K::Designator), Many(K::Property), Many(K::Comment), Many(K::UserData)];
            Net: [BusName, Form(K::Joined)] [Many(K::Property), Many(K::Comment), Many(K::UserData)];
            Joined: [] [Many(K::PortRef)];
            PortRef: [Bit] [Once(K::InstanceRef)];
            Member: [Identifier, Integer] [];
            InstanceRef: [Identifier] [];
            LibraryRef: [Identifier] [];
            ViewRef: [Identifier, Form(K::CellRef)] [];
            CellRef: [Identifier] [Once(K::LibraryRef)];
            Property: [Name, Value] [Once(K::Owner), Many(K::Comment)];
            Boolean: [Truth] [];
            Integer: [Integer] [];
            Number: [Number] [];
            String: [Text] [];
            Design: [Name, Form(K::CellRef)]
                [Many(K::Status), Many(K::Property), Many(K::Comment), Many(K::UserData)];
            Rename: [Identifier, Text] [];
            True: [] [];
            False: [] [];
            E: [Integer, Integer] [];
        }
    };
}

/// The row of a keyword.
#[inline(always)]
pub(crate) fn rule_of(keyword: Keyword) -> Rule
    ensures { row_of result ≡ row keyword }
{
    use Inner::{Many, Once};
    use Keyword as K;
    use Rule::{Skips, Takes};
    use FixedArgument::{
        Bit, BusName, Form, Identifier, Integer, Name, Number, Text, Truth, Value,
    };
    macro_rules! rule {
        ($($variant:ident: [$($fixed:expr),*] [$($inner:expr),*];)*) => {
            match keyword {
                $(K::$variant => Takes(&[$($fixed),*], &[$($inner),*]),)*
                K::Technology | K::Status | K::Comment | K::UserData | K::Path => Skips,
            }
        };
    }
    rows!(rule!)
}

/// The row that holds a form: that of its parent, or with no parent that of a whole file.
pub(crate) fn rule_above(parent: Option<Keyword>) -> Rule
    ensures { row_of result ≡ row_above parent }
{
    match parent {
        None => Rule::Takes(&[FixedArgument::Form(Keyword::Edif)], &[]),
        Some(keyword) => rule_of(keyword),
    }
}

/// Whether a token in the place of an integer is a fault of a kind of its own.
pub(crate) fn tokens_apart(keyword: Keyword) -> bool
    ensures { result ≡ has_own_kind (token_kind keyword) }
{
    matches!(
        keyword,
        Keyword::EdifVersion | Keyword::EdifLevel | Keyword::KeywordLevel
    )
}

/// Whether a second form of this keyword is a bad form, where one is allowed.
pub(crate) fn second_is_bad_form(keyword: Keyword) -> bool
    ensures { result ≡ is_plain keyword }
{
    !matches!(keyword, Keyword::View | Keyword::Design)
}

impl Argument {
    /// Whether it is a form with this keyword.
    #[inline(always)]
    pub fn is_form(self, keyword: Keyword) -> bool
        ensures { result ≡ choice_fits (AForm keyword) self }
    {
        match self {
            Argument::Form(found) => found == keyword,
            _ => false,
        }
    }

    /// Whether it is a token.
    pub fn is_token(self) -> bool
        ensures { result ≡ is_token self }
    {
        !matches!(self, Argument::Form(_) | Argument::Strange)
    }

    /// Whether it is an identifier.
    fn is_identifier(self) -> bool
        ensures { result ≡ choice_fits AnIdentifier self }
    {
        matches!(self, Argument::Identifier)
    }

    /// Whether it is an integer.
    fn is_integer(self) -> bool
        ensures { result ≡ choice_fits AnInteger self }
    {
        matches!(self, Argument::Integer)
    }

    /// Whether it is a string.
    fn is_text(self) -> bool
        ensures { result ≡ choice_fits AString self }
    {
        matches!(self, Argument::Text)
    }
}

impl FixedArgument {
    /// Whether the argument is what is wanted.
    #[inline(always)]
    pub fn fits(self, argument: Argument) -> bool
        ensures { result ≡ one_fits (choices self) argument }
    {
        match self {
            FixedArgument::Identifier => argument.is_identifier(),
            FixedArgument::Integer => argument.is_integer(),
            FixedArgument::Text => argument.is_text(),
            FixedArgument::Form(keyword) => argument.is_form(keyword),
            FixedArgument::Name => argument.is_identifier() || argument.is_form(Keyword::Rename),
            FixedArgument::BusName => {
                argument.is_identifier()
                    || argument.is_form(Keyword::Rename)
                    || argument.is_form(Keyword::Array)
            }
            FixedArgument::Bit => argument.is_identifier() || argument.is_form(Keyword::Member),
            FixedArgument::Truth => argument.is_form(Keyword::True)
                || argument.is_form(Keyword::False),
            FixedArgument::Number => argument.is_integer() || argument.is_form(Keyword::E),
            FixedArgument::Value => {
                argument.is_form(Keyword::Boolean)
                    || argument.is_form(Keyword::Integer)
                    || argument.is_form(Keyword::Number)
                    || argument.is_form(Keyword::String)
            }
        }
    }
}

/// Whether the argument may follow.
#[inline(always)]
pub(crate) fn may_follow(inner: &[Inner], argument: Argument) -> bool
    ensures { result ≡ follows (map follower inner.now) argument }
{
    for follower in inner {
        let (Inner::Many(keyword) | Inner::Once(keyword)) = *follower;
        if argument.is_form(keyword) {
            return true;
        }
    }
    false
}

/// Whether the argument is one of the fixed ones.
fn is_wanted(fixed: &[FixedArgument], argument: Argument) -> bool
    ensures { result ≡ list_any (λ c. one_fits c argument) (map choices fixed.now) }
{
    for wanted in fixed {
        if wanted.fits(argument) {
            return true;
        }
    }
    false
}

impl Rule {
    /// Whether the row has such an argument somewhere.
    pub fn has(self, argument: Argument) -> bool
        ensures { result ≡ row_fits (row_of self) argument }
    {
        match self {
            Rule::Skips => false,
            Rule::Takes(fixed, inner) => is_wanted(fixed, argument) || may_follow(inner, argument),
        }
    }
}
