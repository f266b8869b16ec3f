//! The words of messages, each as a row of pieces: a text or, by its name, a slot. The words for numbers of faults and
//! warnings are in meanings.rt, those for forms and for what they want in forms.rt.

ghost use Rattle.std.specs.Prelude.{◌≡◌, true};
ghost use Rattle.std.specs.List.{list_all};
ghost use Rattle.kc_explain.specs.Messages.{choice_slots, config_slots, fills, form_slots, line_slots, node_slots, refusal_slots, symbol_slots, text_slots, way_slots};

use crate::piece::{Piece, Slot};
use kc_lines::Way;
use kc_tree::Node;

/// A row of pieces.
macro_rules! row {
    ($($piece:tt)*) => { &[$(piece!($piece)),*] };
}

/// A text, or a slot by its name.
macro_rules! piece {
    ($text:literal) => { Piece::Text($text) };
    ($slot:ident) => { Piece::Filled(Slot::$slot) };
}

/// What is said of a line that passes a limit (K01), begins with no known word (K04), is an attribute that the nearest
/// statement does not take (K06), or is about a block that is closed wrongly or not at all (K07).
#[derive(Clone, Copy)]
pub(crate) enum LineMessage {
    NotsInRow,
    OpenParentheses,
    OpenBlocks,
    Symbols,
    NoWord,
    NoKeyword,
    Misspelt,
    CommentSign,
    AfterHelp,
    UnindentedHelp,
    QuotedKeyword,
    ExpandedKeyword,
    StrayAlone,
    StrayAfterEnd,
    StrayAfter,
    ClosesNothing,
    ClosesOther,
    ClosesElsewhere,
    Unclosed,
}

/// What is said of a line that does not have the form of its statement (K05) or is unsupported (K20).
#[derive(Clone, Copy)]
pub(crate) enum FormMessage {
    /// The word of the statement wants something, and another token comes.
    WantsNot,
    /// The same where no token comes.
    WantsMore,
    /// Something is wanted after a token, and another token comes.
    WantedNot,
    /// The same where no token comes.
    WantedMore,
    WithForm,
    /// Words after those for a mistake: what is to be written in place of what is there.
    Instead,
    /// Words after those for a mistake at a word such as `//`.
    CommentBegins,
    WithoutOn,
    DefaultOfChoice,
    UnsupportedWord,
    NamedChoice,
    ConditionOfDepends,
    /// The same where no line can be written in its place.
    AnyCondition,
    IfForPrompt,
    Unquoted,
    UnquotedIf,
    /// A text without quotes, where no line can be written in its place.
    AnyUnquoted,
    /// Text without quotes that begins with `//`.
    NoComment,
    TristateOfChoice,
    InChoice,
}

/// What is said of a text that passes a limit (K01), has a character that is not allowed (K02), does not close a quote
/// (K03), has a dollar that begins no reference (K10), or defines a variable that its own expansion needs (K11).
#[derive(Clone, Copy)]
pub(crate) enum TextMessage {
    FileLimit,
    LineLimit,
    SourceLimit,
    ReferenceLimit,
    ValueCharacter,
    InColumn,
    InColumnOfLine,
    Character,
    BlankAfterBackslash,
    UnclosedQuote,
    /// Words after those for a character: the sign that may be meant by a `&`.
    WriteAnd,
    /// The same for a `|`.
    WriteOr,
    /// The same for a `,` between the symbols of a `select` or an `imply`.
    LineForEach,
    /// Words after those for a character or a quote in a line that begins with `//`.
    CommentBegins,
    /// Words after those for a mistake in the line after a `help` without a text.
    OfHelp,
    Function,
    ReservedName,
    Dollar,
    DollarOfValue,
    DollarOfVariable,
    NeedsItself,
}

/// What is said of a fault of a symbol (K12 to K16, K18).
#[derive(Clone, Copy)]
pub(crate) enum SymbolMessage {
    NoType,
    TwoTypes,
    TwoPrompts,
    NoTerm,
    NoRange,
    UnfitText,
    UnfitWord,
    ImpliedBy,
    SelectedBy,
    Implies,
    Selects,
    OtherModules,
    ModulesType,
}

/// What is said of a fault of a choice (K17), and of its members.
#[derive(Clone, Copy)]
pub(crate) enum ChoiceMessage {
    NoPrompt,
    TwoPrompts,
    ForeignDefault,
    NoMembers,
    OneMember,
    Members,
    ManyMembers,
    MemberType,
    MemberWithoutPrompt,
    MemberDefinedAgain,
}

/// What is said of a line of a `.config` with a warning.
#[derive(Clone, Copy)]
pub(crate) enum ConfigMessage {
    NotText,
    ConflictMark,
    ByteOrderMark,
    NothingNamed,
    NoName,
    PrefixAlone,
    BlanksAround,
    BlanksBefore,
    WithoutPrefix,
    /// Words after those for a line: the line that is meant.
    Meant,
    UndefinedName,
    /// The same where the name comes before the words.
    Undefined,
    Repeated,
    NotSet,
    EmptyValue,
    UnfitValue,
    BlanksAfter,
    CommentAfter,
    UnclosedString,
    BareString,
    LongString,
}

/// What is said of a command of a session that is refused.
#[derive(Clone, Copy)]
pub(crate) enum RefusalMessage {
    Empty,
    Unknown,
    /// Words after those for an unknown command, where none is near.
    Listed,
    Missing,
    Spare,
    /// Words after those for a name that no symbol has.
    WithoutPrefix,
    Unfit,
    NoCount,
    Ended,
}

impl LineMessage {
    /// Its row.
    pub fn row(self) -> &'static [Piece]
        ensures { list_all (fills (line_slots self)) result.now ≡ true }
    {
        match self {
            Self::NotsInRow => row!["more than " Number " `!` are in a row"],
            Self::OpenParentheses => row!["more than " Number " parentheses are open at once"],
            Self::OpenBlocks => row!["more than " Number " blocks are open in one another"],
            Self::Symbols => row!["more than " Number " symbols are defined"],
            Self::NoWord => row!["the line has no word"],
            Self::NoKeyword => row!["`" Word "` begins no statement"],
            Self::Misspelt => row!["`" Word "` begins no statement; did you mean `" Wanted "`?"],
            Self::CommentSign => row!["`" Word "` begins no statement; a comment begins with `#`"],
            Self::AfterHelp => row![
                "`" Word "` begins no statement; the line is indented by " Number
                ", the help text of line " Line " by " Second ", so that ended"
            ],
            Self::UnindentedHelp => row![
                "`" Word "` begins no statement; the text of the `help` in line " Line
                " has to be indented from its first line on"
            ],
            Self::QuotedKeyword => row![
                Word " begins no statement, as a text in quotes is no keyword"
            ],
            Self::ExpandedKeyword => row![
                "`" Word "` begins no statement, as a word with a reference is no keyword"
            ],
            Self::StrayAlone => row![
                "`" Word "` is an attribute of " List ", and no statement is before it"
            ],
            Self::StrayAfterEnd => row![
                "`" Word "` is an attribute of " List
                ", and the end of " Path " has ended the entry before it"
            ],
            Self::StrayAfter => row![
                "`" Word "` is an attribute of " List
                ", and the statement before it is `" Text "`"
            ],
            Self::ClosesNothing => row!["`" Word "` closes nothing: no block is open"],
            Self::ClosesOther => row!["`" Word "` does not close the `" Text "` of line " Line],
            Self::ClosesElsewhere => row![
                "`" Word "` closes nothing in its file: the `" Text "` is open in another file"
            ],
            Self::Unclosed => row![
                "the file ends before the `" Wanted "` of line " Line "'s `" Text "`"
            ],
        }
    }
}

impl FormMessage {
    /// Its row.
    pub fn row(self) -> &'static [Piece]
        ensures { list_all (fills (form_slots self)) result.now ≡ true }
    {
        match self {
            Self::WantsNot => row!["`" Word "` wants " Wanted ", not `" Text "`"],
            Self::WantsMore => row!["`" Word "` wants " Wanted ", and the line ends"],
            Self::WantedNot => row!["after `" Word "` " Wanted " is wanted, not `" Text "`"],
            Self::WantedMore => row!["after `" Word "` " Wanted " is wanted, and the line ends"],
            Self::WithForm => row![Text ": " Form],
            Self::Instead => row!["; write `" Form "`"],
            Self::CommentBegins => row!["; a comment begins with `#`"],
            Self::WithoutOn => row!["`depends` wants `on`: depends on " Text],
            Self::DefaultOfChoice => row![
                "the default of a choice is the name of a member alone: default NAME [if E]"
            ],
            Self::UnsupportedWord => row!["`" Text "` is unsupported: " Form],
            Self::NamedChoice => row!["a choice with the name `" Text "`: write `choice` alone"],
            Self::ConditionOfDepends => row![
                "a condition of `depends on`: depends " Text " || !(" Other ")"
            ],
            Self::AnyCondition => row!["a condition of `depends on` is unsupported"],
            Self::IfForPrompt => row!["`if` in place of a prompt: " Word " \"prompt\" if .."],
            Self::Unquoted => row!["a " Kind " without quotes: " Word " " Text],
            Self::UnquotedIf => row!["a " Kind " without quotes: " Word " " Text " if " Other],
            Self::AnyUnquoted => row!["a " Kind " without quotes: " Word " \"..\""],
            Self::NoComment => row!["a comment begins with `#`, not with `//`"],
            Self::TristateOfChoice => row![
                "`tristate` of a choice is unsupported: write `bool`, or `prompt` alone"
            ],
            Self::InChoice => row!["`" Text "` is inside the choice of line " Line],
        }
    }
}

impl TextMessage {
    /// Its row.
    pub fn row(self) -> &'static [Piece]
        ensures { list_all (fills (text_slots self)) result.now ≡ true }
    {
        match self {
            Self::FileLimit => row![
                "the file has more than 16,777,216 bytes, with those of all other files, or is one more than 4,096"
            ],
            Self::LineLimit => row!["the line has more than 65,536 bytes"],
            Self::SourceLimit => row![
                "more than 64 files are open at once, or more than 4,096 `source` lines are followed, or they put more than 16,777,216 bytes in place"
            ],
            Self::ReferenceLimit => row![
                "the line with its references expanded has more than 65,536 bytes, or needs more than 65,536 references, or 64 variables within one another"
            ],
            Self::ValueCharacter => row!["its value has a line feed, a carriage return or a NUL"],
            Self::InColumn => row![" in column " Number],
            Self::InColumnOfLine => row![" in column " Number " of line " Line],
            Self::Character => row![Text Place " is not allowed outside quotes"],
            Self::BlankAfterBackslash => row![
                "a blank after the backslash" Place ": the lines are not joined"
            ],
            Self::UnclosedQuote => row!["no " Text " closes the one" Place],
            Self::WriteAnd => row!["; write `&&`"],
            Self::WriteOr => row!["; write `||`"],
            Self::LineForEach => row!["; write a line for each"],
            Self::CommentBegins => row!["; a comment begins with `#`"],
            Self::OfHelp => row![
                "; if the line is text of the `help` in line " Line ", it has to be indented"
            ],
            Self::Function => row![
                "the function `" Name "` is not run: expand the tree first, see docs/TREES.md"
            ],
            Self::ReservedName => row![
                "`$(" Name ")`" Place " is no reference: no variable has this name"
            ],
            Self::Dollar => row![
                "the dollar" Place " begins no reference: write $(NAME), or \\$ in quotes for a plain dollar, and expand a tree with functions first, see docs/TREES.md"
            ],
            Self::DollarOfValue => row![
                "the dollar" Place " begins no reference: write $(NAME), as a value has no escape for a plain dollar, and expand a tree with functions first, see docs/TREES.md"
            ],
            Self::DollarOfVariable => row![
                "the text of `" Name "`, or of a variable in it, has a dollar that begins no reference"
            ],
            Self::NeedsItself => row!["`" Name "` needs itself"],
        }
    }
}

impl SymbolMessage {
    /// Its row.
    pub fn row(self) -> &'static [Piece]
        ensures { list_all (fills (symbol_slots self)) result.now ≡ true }
    {
        match self {
            Self::NoType => row!["no definition of it has a type"],
            Self::TwoTypes => row![Kind " and " Other],
            Self::TwoPrompts => row!["two prompts in one definition"],
            Self::NoTerm => row!["the default of " Kind " is one term"],
            Self::NoRange => row![Kind " takes no range"],
            Self::UnfitText => row!["\"" Value "\" is no " Kind],
            Self::UnfitWord => row![Value " is no " Kind],
            Self::ImpliedBy => row!["implied by " Other ", but " Name " is " Kind],
            Self::SelectedBy => row!["selected by " Other ", but " Name " is " Kind],
            Self::Implies => row!["implies " Other ", but " Name " is " Kind],
            Self::Selects => row!["selects " Other ", but " Name " is " Kind],
            Self::OtherModules => row!["`modules` in a symbol that is not MODULES"],
            Self::ModulesType => row!["MODULES is " Kind ", and has to be a bool"],
        }
    }
}

impl ChoiceMessage {
    /// Its row.
    pub fn row(self) -> &'static [Piece]
        ensures { list_all (fills (choice_slots self)) result.now ≡ true }
    {
        match self {
            Self::NoPrompt => row!["this choice has no prompt"],
            Self::TwoPrompts => row!["this choice has two prompts"],
            Self::ForeignDefault => row![
                "the default " Name " is no member of this choice; " List
            ],
            Self::NoMembers => row!["it has no members"],
            Self::OneMember => row!["its only member is " List],
            Self::Members => row!["its members are " List],
            Self::ManyMembers => row!["its members are " List " and " Number " more"],
            Self::MemberType => row!["the member " Name " is " Kind ", and has to be a bool"],
            Self::MemberWithoutPrompt => row!["the member " Name " has no prompt"],
            Self::MemberDefinedAgain => row!["the member " Name " has a second definition"],
        }
    }
}

impl ConfigMessage {
    /// Its row.
    pub fn row(self) -> &'static [Piece]
        ensures { list_all (fills (config_slots self)) result.now ≡ true }
    {
        match self {
            Self::NotText => row!["the line is not UTF-8"],
            Self::ConflictMark => row!["a mark of a conflict between two versions"],
            Self::ByteOrderMark => row![Text " in column 1 is not allowed; leave it out"],
            Self::NothingNamed => row!["no name is before `=`"],
            Self::NoName => row![
                Text " in column " Number " is not allowed in a name, which has ASCII letters, digits and _ alone"
            ],
            Self::PrefixAlone => row!["no name is after " Prefix],
            Self::BlanksAround => row!["blanks around `=`"],
            Self::BlanksBefore => row!["blanks before the name"],
            Self::WithoutPrefix => row!["the name does not begin with " Prefix],
            Self::Meant => row!["; write " Form],
            Self::UndefinedName => row!["no symbol is named " Name],
            Self::Undefined => row!["no symbol has this name"],
            Self::Repeated =>
                row![Name " has a usable line before, line " Line "; this one counts"],
            Self::NotSet => row![
                Name " is " Kind " (" Path ":" Line "), which takes " List ", not `is not set`"
            ],
            Self::EmptyValue => row![
                Name " is " Kind " (" Path ":" Line "), which takes " List ", not an empty value"
            ],
            Self::UnfitValue => row![
                Name " is " Kind " (" Path ":" Line "), which takes " List ", not " Value
            ],
            Self::BlanksAfter => row!["blanks after `=`"],
            Self::CommentAfter => row!["a comment has a line of its own"],
            Self::UnclosedString => row![
                Name " is a string (" Path ":" Line "), and no `\"` ends its text"
            ],
            Self::BareString => row![Name " is a string (" Path ":" Line ")"],
            Self::LongString => row![
                Name " is a string (" Path ":" Line "), which takes a text in quotes"
            ],
        }
    }
}

impl RefusalMessage {
    /// Its row.
    pub fn row(self) -> &'static [Piece]
        ensures { list_all (fills (refusal_slots self)) result.now ≡ true }
    {
        match self {
            Self::Empty => row!["the line is empty"],
            Self::Unknown => row!["no command is named " Word],
            Self::Listed => row!["; kconf session --help lists them"],
            Self::Missing => row!["an argument is missing: " Form],
            Self::Spare => row!["an argument too many: " Form],
            Self::WithoutPrefix => row!["; names are written without " Prefix],
            Self::Unfit => row![Name " is " Kind ", which takes " List],
            Self::NoCount => row!["`" Word "` is no count of lines, which has one to seven digits"],
            Self::Ended => row!["the input ended before " Word " lines"],
        }
    }
}

/// What a node has, and by what.
pub(crate) fn node_pieces(node: Node) -> &'static [Piece]
    ensures { list_all (fills (node_slots node)) result.now ≡ true }
{
    match node {
        Node::Vis(_) => row![Name " is visible by " Text],
        Node::Val(_) => row![Name " has its value by " Text],
        Node::Mode(_) => row!["the choice \"" Name "\" has its mode by " Text],
        Node::Sel(_) => row!["the choice \"" Name "\" has its selection by " Text],
    }
}

/// By what a node uses the next. Blanks have the places of visibilities and values in one column.
pub(crate) fn way_pieces(way: Way, node: Node) -> &'static [Piece]
    ensures { list_all (fills (way_slots way)) result.now ≡ true }
{
    match (way, node) {
        (Way::Own, Node::Vis(_)) => row!["   "],
        (Way::Own, _) => row![],
        (Way::Around, _) => row!["the " Kind " around it, "],
        (Way::Selected, _) => row![Other "'s "],
        (Way::OfSelecting(_), _) => row!["and " Other "'s "],
        (Way::AroundSelecting(_), _) => row!["and the " Kind " around " Other ", "],
        (Way::Type, _) => row!["its type, "],
        (Way::Visibility, _) => row!["its visibility, "],
        (Way::Choice, _) => row!["its choice, "],
        (Way::Mode, _) => row!["its mode, "],
        (Way::Member, _) => row!["its member "],
    }
}
