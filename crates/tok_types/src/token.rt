//! Token types that are named after their keywords, punctuation and delimiters.
//!
//! For example, `token::Fn` is the keyword `fn`, and `token::PathSep` is the punctuation `::`.
//! Import the module instead of its items, because std also has items named `Box`, `Eq` and `Fn`.
//!
//! # Examples
//!
//! ```rust
//! let buffer = TokenBuffer::from_text(alloc, 0, 0, "fn a::b")?;
//! assert_eq!(rt; token::Fn::peek(buffer.begin()), true);
//! assert_eq!(rt; token::PathSep::display(), "`::`");
//! ```
pub mod printing;

pub use crate::delimiter::{Group, Visible};
pub use crate::keyword::Keyword;
pub use crate::look::Token;
pub use crate::punctuation::Punctuation;
pub use crate::texts::{
    keyword_display, keyword_number, keyword_text, punctuation_display, punctuation_number,
    punctuation_text,
};
pub use crate::underscore::Underscore;

/// The keyword `abstract`.
pub type Abstract = Keyword<0>;

/// The keyword `as`.
pub type As = Keyword<1>;

/// The keyword `async`.
pub type Async = Keyword<2>;

/// The keyword `auto`.
pub type Auto = Keyword<3>;

/// The keyword `await`.
pub type Await = Keyword<4>;

/// The keyword `become`.
pub type Become = Keyword<5>;

/// The keyword `box`.
pub type Box = Keyword<6>;

/// The keyword `break`.
pub type Break = Keyword<7>;

/// The keyword `const`.
pub type Const = Keyword<8>;

/// The keyword `continue`.
pub type Continue = Keyword<9>;

/// The keyword `crate`.
pub type Crate = Keyword<10>;

/// The keyword `default`.
pub type Default = Keyword<11>;

/// The keyword `do`.
pub type Do = Keyword<12>;

/// The keyword `dyn`.
pub type Dyn = Keyword<13>;

/// The keyword `else`.
pub type Else = Keyword<14>;

/// The keyword `enum`.
pub type Enum = Keyword<15>;

/// The keyword `extern`.
pub type Extern = Keyword<16>;

/// The keyword `final`.
pub type Final = Keyword<17>;

/// The keyword `fn`.
pub type Fn = Keyword<18>;

/// The keyword `for`.
pub type For = Keyword<19>;

/// The keyword `if`.
pub type If = Keyword<20>;

/// The keyword `impl`.
pub type Impl = Keyword<21>;

/// The keyword `in`.
pub type In = Keyword<22>;

/// The keyword `let`.
pub type Let = Keyword<23>;

/// The keyword `loop`.
pub type Loop = Keyword<24>;

/// The keyword `macro`.
pub type Macro = Keyword<25>;

/// The keyword `match`.
pub type Match = Keyword<26>;

/// The keyword `mod`.
pub type Mod = Keyword<27>;

/// The keyword `move`.
pub type Move = Keyword<28>;

/// The keyword `mut`.
pub type Mut = Keyword<29>;

/// The keyword `override`.
pub type Override = Keyword<30>;

/// The keyword `priv`.
pub type Priv = Keyword<31>;

/// The keyword `pub`.
pub type Pub = Keyword<32>;

/// The keyword `raw`.
pub type Raw = Keyword<33>;

/// The keyword `ref`.
pub type Ref = Keyword<34>;

/// The keyword `return`.
pub type Return = Keyword<35>;

/// The keyword `safe`.
pub type Safe = Keyword<36>;

/// The keyword `Self`.
pub type SelfType = Keyword<37>;

/// The keyword `self`.
pub type SelfValue = Keyword<38>;

/// The keyword `static`.
pub type Static = Keyword<39>;

/// The keyword `struct`.
pub type Struct = Keyword<40>;

/// The keyword `super`.
pub type Super = Keyword<41>;

/// The keyword `trait`.
pub type Trait = Keyword<42>;

/// The keyword `try`.
pub type Try = Keyword<43>;

/// The keyword `type`.
pub type Type = Keyword<44>;

/// The keyword `typeof`.
pub type Typeof = Keyword<45>;

/// The keyword `union`.
pub type Union = Keyword<46>;

/// The keyword `unsafe`.
pub type Unsafe = Keyword<47>;

/// The keyword `unsized`.
pub type Unsized = Keyword<48>;

/// The keyword `use`.
pub type Use = Keyword<49>;

/// The keyword `virtual`.
pub type Virtual = Keyword<50>;

/// The keyword `where`.
pub type Where = Keyword<51>;

/// The keyword `while`.
pub type While = Keyword<52>;

/// The keyword `yield`.
pub type Yield = Keyword<53>;

/// The token `&`.
pub type And = Punctuation<0, 1>;

/// The token `&&`.
pub type AndAnd = Punctuation<1, 2>;

/// The token `&=`.
pub type AndEq = Punctuation<2, 2>;

/// The token `@`.
pub type At = Punctuation<3, 1>;

/// The token `^`.
pub type Caret = Punctuation<4, 1>;

/// The token `^=`.
pub type CaretEq = Punctuation<5, 2>;

/// The token `:`.
pub type Colon = Punctuation<6, 1>;

/// The token `,`.
pub type Comma = Punctuation<7, 1>;

/// The token `$`.
pub type Dollar = Punctuation<8, 1>;

/// The token `.`.
pub type Dot = Punctuation<9, 1>;

/// The token `..`.
pub type DotDot = Punctuation<10, 2>;

/// The token `...`.
pub type DotDotDot = Punctuation<11, 3>;

/// The token `..=`.
pub type DotDotEq = Punctuation<12, 3>;

/// The token `=`.
pub type Eq = Punctuation<13, 1>;

/// The token `==`.
pub type EqEq = Punctuation<14, 2>;

/// The token `=>`.
pub type FatArrow = Punctuation<15, 2>;

/// The token `>=`.
pub type Ge = Punctuation<16, 2>;

/// The token `>`.
pub type Gt = Punctuation<17, 1>;

/// The token `<-`.
pub type LArrow = Punctuation<18, 2>;

/// The token `<=`.
pub type Le = Punctuation<19, 2>;

/// The token `<`.
pub type Lt = Punctuation<20, 1>;

/// The token `-`.
pub type Minus = Punctuation<21, 1>;

/// The token `-=`.
pub type MinusEq = Punctuation<22, 2>;

/// The token `!=`.
pub type Ne = Punctuation<23, 2>;

/// The token `!`.
pub type Not = Punctuation<24, 1>;

/// The token `|`.
pub type Or = Punctuation<25, 1>;

/// The token `|=`.
pub type OrEq = Punctuation<26, 2>;

/// The token `||`.
pub type OrOr = Punctuation<27, 2>;

/// The token `::`.
pub type PathSep = Punctuation<28, 2>;

/// The token `%`.
pub type Percent = Punctuation<29, 1>;

/// The token `%=`.
pub type PercentEq = Punctuation<30, 2>;

/// The token `+`.
pub type Plus = Punctuation<31, 1>;

/// The token `+=`.
pub type PlusEq = Punctuation<32, 2>;

/// The token `#`.
pub type Pound = Punctuation<33, 1>;

/// The token `?`.
pub type Question = Punctuation<34, 1>;

/// The token `->`.
pub type RArrow = Punctuation<35, 2>;

/// The token `;`.
pub type Semi = Punctuation<36, 1>;

/// The token `<<`.
pub type Shl = Punctuation<37, 2>;

/// The token `<<=`.
pub type ShlEq = Punctuation<38, 3>;

/// The token `>>`.
pub type Shr = Punctuation<39, 2>;

/// The token `>>=`.
pub type ShrEq = Punctuation<40, 3>;

/// The token `/`.
pub type Slash = Punctuation<41, 1>;

/// The token `/=`.
pub type SlashEq = Punctuation<42, 2>;

/// The token `*`.
pub type Star = Punctuation<43, 1>;

/// The token `*=`.
pub type StarEq = Punctuation<44, 2>;

/// The token `~`.
pub type Tilde = Punctuation<45, 1>;

/// The parentheses `(` and `)` of a group.
pub type Paren = Visible<0>;

/// The braces `{` and `}` of a group.
pub type Brace = Visible<1>;

/// The brackets `[` and `]` of a group.
pub type Bracket = Visible<2>;
