//! The rules that a source, a file or a line can break.
ghost use Rattle.std.specs.Prelude.{◌≡◌, IsTrue, map};
ghost use Rattle.gft_rules.specs.Rules.{code_of, text_of, row_of, every_rule, IsAlone};
ghost use Rattle.gft_rules.specs.Tables.{is_ascending};

use crate::table::Table;

/// A rule that a refusal names. Its number is its code.
#[derive(Clone, Copy, Debug, PartialEq, Eq)]
pub enum Rule {
    NotUtf8 = 1,
    BadCharacter = 2,
    OpenString = 3,
    BadEscape = 4,
    OpenComment = 5,
    NumberTooLarge = 6,
    Syntax = 7,
    TooDeep = 8,
    OutOfProfile = 9,
    MissingFile = 10,
    CannotRead = 11,
    FileTooLong = 12,
    TooManyModules = 13,
    NameMismatch = 14,
    ModuleCycle = 15,
    WrongKind = 16,
    RestrictUnknown = 17,
    InheritClash = 18,
    NotIncomplete = 19,
    ParameterUnmatched = 20,
    InstanceLacks = 21,
    Redefined = 22,
    Unknown = 23,
    Ambiguous = 24,
    PatternVars = 25,
    UnknownCat = 26,
    HigherOrder = 27,
    NotAbstract = 28,
    Arity = 29,
    IndexType = 30,
    NoType = 31,
    NotRecord = 32,
    NoField = 33,
    NotTable = 34,
    NotFunction = 35,
    Mismatch = 36,
    FunctionHere = 37,
    NotFinite = 38,
    ParamTooLarge = 39,
    NotExhaustive = 40,
    NoOverload = 41,
    ManyOverloads = 42,
    OperCycle = 43,
    ParamCycle = 44,
    InstanceType = 45,
    NoLincat = 46,
    NoLin = 47,
    TooManyCells = 48,
    TooManyCases = 49,
    GlueOnArgument = 50,
    MatchOnArgument = 51,
    NoStringBranch = 52,
    TooManyProductions = 53,
    TooManyCategories = 54,
    AbstractsDiffer = 55,
    BadMagic = 56,
    BadVersion = 57,
    Short = 58,
    TooLong = 59,
    BadText = 60,
    BadNumber = 61,
    BadTag = 62,
    BadOrder = 63,
    Invalid = 64,
    UnknownCommand = 65,
    BadOption = 66,
    BadArgument = 67,
    BadPipe = 68,
    TreeSyntax = 69,
    TreeTooDeep = 70,
    BadLiteral = 71,
    NoGrammar = 72,
    NoLanguage = 73,
    NoSuchLanguage = 74,
    NoSuchCategory = 75,
    TooManyWords = 76,
    TokenTooLong = 77,
    UnknownFun = 78,
    WrongArity = 79,
    WrongCategory = 80,
    IllTyped = 81,
    UnknownName = 82,
    CannotWrite = 83,
    PortableTooLong = 84,
    LineTooLong = 85,
    LineNotUtf8 = 86,
    TooManyNonterminals = 87,
    TooManyTrees = 88,
}

// Hands every rule, in the order of the codes, to another macro.
macro_rules! for_every_rule {
    ($writes:ident $on:tt) => {
        $writes! { $on
            NotUtf8,
            BadCharacter,
            OpenString,
            BadEscape,
            OpenComment,
            NumberTooLarge,
            Syntax,
            TooDeep,
            OutOfProfile,
            MissingFile,
            CannotRead,
            FileTooLong,
            TooManyModules,
            NameMismatch,
            ModuleCycle,
            WrongKind,
            RestrictUnknown,
            InheritClash,
            NotIncomplete,
            ParameterUnmatched,
            InstanceLacks,
            Redefined,
            Unknown,
            Ambiguous,
            PatternVars,
            UnknownCat,
            HigherOrder,
            NotAbstract,
            Arity,
            IndexType,
            NoType,
            NotRecord,
            NoField,
            NotTable,
            NotFunction,
            Mismatch,
            FunctionHere,
            NotFinite,
            ParamTooLarge,
            NotExhaustive,
            NoOverload,
            ManyOverloads,
            OperCycle,
            ParamCycle,
            InstanceType,
            NoLincat,
            NoLin,
            TooManyCells,
            TooManyCases,
            GlueOnArgument,
            MatchOnArgument,
            NoStringBranch,
            TooManyProductions,
            TooManyCategories,
            AbstractsDiffer,
            BadMagic,
            BadVersion,
            Short,
            TooLong,
            BadText,
            BadNumber,
            BadTag,
            BadOrder,
            Invalid,
            UnknownCommand,
            BadOption,
            BadArgument,
            BadPipe,
            TreeSyntax,
            TreeTooDeep,
            BadLiteral,
            NoGrammar,
            NoLanguage,
            NoSuchLanguage,
            NoSuchCategory,
            TooManyWords,
            TokenTooLong,
            UnknownFun,
            WrongArity,
            WrongCategory,
            IllTyped,
            UnknownName,
            CannotWrite,
            PortableTooLong,
            LineTooLong,
            LineNotUtf8,
            TooManyNonterminals,
            TooManyTrees,
        }
    };
}

// A row for each rule: its code, and its name as its text.
macro_rules! rows {
    (() $($rule:ident,)*) => {
        [$((Rule::$rule as u32, stringify!($rule))),*]
    };
}

// The name of a rule.
macro_rules! name {
    (($of:expr) $($rule:ident,)*) => {
        match $of {
            $(Rule::$rule => stringify!($rule),)*
        }
    };
}

static ROWS: [(u32, &'static str); 88] = for_every_rule!(rows());

impl Rule {
    /// The rule's number. It takes no memory.
    pub fn code(&self) -> u32
        ensures code { result ≡ code_of self.now }
        ensures one_to_one { IsAlone self.now }
    {
        *self as u32
    }

    /// The rule's name, as a refusal writes it. It takes no memory.
    pub fn text(&self) -> &'static str
        ensures { result.now ≡ text_of self.now }
    {
        for_every_rule!(name(self))
    }
}

/// The table of all rules, in the order of their codes.
pub fn rules() -> Table<88>
    ensures rows { result ≡ map row_of every_rule }
    ensures ascending { IsTrue (is_ascending result) }
{
    Table::new(&ROWS)
}
