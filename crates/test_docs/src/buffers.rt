//! Examples of `tok_buffer`.
use std::alloc::{AllocError, AllocGlobal, Global};
use std::process::Abort;
use tok_buffer::{Error, TokenBuffer};
use tok_core::{LexFault, Span, TokenTree, lex, lex_marked};
use tok_entries::{EntryFault, LexedEntries, write_entries};

fn buffer(rt: &(impl Abort + AllocGlobal), alloc: Global) -> Result<(), LexFault> {
    let buffer = TokenBuffer::from_text(alloc, 0, 0, "a(b)")?;
    let same = TokenBuffer::new2(alloc, 1, lex(alloc, 0, "a(b)")?)?;
    assert_eq!(rt; buffer.begin().span(), same.begin().span());
    assert_eq!(rt; buffer.begin() == same.begin(), false);
    Ok(())
}

fn cursor(rt: &(impl Abort + AllocGlobal), alloc: Global) -> Result<(), LexFault> {
    let buffer = TokenBuffer::from_marked(alloc, 0, 0, "«a» = (b)")?;
    if let Some((name, rest)) = buffer.begin().ident() {
        assert_eq!(rt; name.as_str(), "a");
        assert_eq!(rt; rest.peek_punct("="), true);
    }
    assert!(rt; buffer.begin().ident().is_some());
    Ok(())
}

fn between(rt: &(impl Abort + AllocGlobal), alloc: Global) -> Result<(), LexFault> {
    let buffer = TokenBuffer::from_marked(alloc, 0, 0, "«a» = b")?;
    if let Some((_, rest)) = buffer.begin().ident() {
        let tokens = buffer.begin().tokens_up_to(alloc, rest)?;
        assert!(rt; matches!(tokens.trees().first(), Some(TokenTree::Group(_))));
    }
    Ok(())
}

// Why an example of entries fails.
#[derive(Clone, Copy)]
enum Failed {
    Lex,
    Entries,
    Memory,
}

impl From<LexFault> for Failed {
    fn from(_: LexFault) -> Self {
        Failed::Lex
    }
}

impl From<EntryFault> for Failed {
    fn from(_: EntryFault) -> Self {
        Failed::Entries
    }
}

impl From<AllocError> for Failed {
    fn from(_: AllocError) -> Self {
        Failed::Memory
    }
}

fn entries(rt: &(impl Abort + AllocGlobal), alloc: Global) -> Result<(), Failed> {
    let mut entries = Vec::new(alloc);
    let mut texts = String::new(alloc);
    write_entries(&mut entries, &mut texts, &lex(alloc, 0, "a(b)")?)?;
    assert_eq!(rt; (entries.len(), texts.as_str()), (4, "ab"));
    assert_eq!(rt; (entries[1].kind, entries[1].distance), (3, 2));
    Ok(())
}

fn lexed(rt: &(impl Abort + AllocGlobal), alloc: Global) -> Result<(), Failed> {
    let lexed = LexedEntries::from_text(alloc, "a(b)")?;
    assert_eq!(rt; (lexed.entries.len(), lexed.texts.as_str()), (4, "ab"));
    Ok(())
}

fn pruned(rt: &(impl Abort + AllocGlobal), alloc: Global) -> Result<(), Failed> {
    let mut entries = Vec::new(alloc);
    let mut texts = String::new(alloc);
    let stream = lex_marked(alloc, 0, "« a + «» »")?;
    write_entries(&mut entries, &mut texts, &stream)?;
    let buffer = TokenBuffer::from_entries(alloc, 0, &entries, texts.as_str())?;
    let pruned = TokenBuffer::from_marked(alloc, 1, 0, "« a +  »")?;
    assert_eq!(rt; buffer.begin().remaining(), pruned.begin().remaining());
    Ok(())
}

#[test]
fn buffers(rt: HostRuntime) {
    assert!(rt; entries(&rt, rt.alloc()).is_ok());
    assert!(rt; lexed(&rt, rt.alloc()).is_ok());
    assert!(rt; pruned(&rt, rt.alloc()).is_ok());
    assert!(rt; buffer(&rt, rt.alloc()).is_ok());
    assert!(rt; cursor(&rt, rt.alloc()).is_ok());
    assert!(rt; between(&rt, rt.alloc()).is_ok());
}

fn error(rt: &(impl Abort + AllocGlobal), alloc: Global) -> Result<(), AllocError> {
    let mut error = Error::new(alloc, Span::source(0, 2, 5), "expected a name")?;
    error.combine(Error::new(alloc, Span::call_site(), "second message")?)?;
    assert_eq!(rt; error.as_str(), "expected a name");
    assert_eq!(rt; error.span(), Span::source(0, 2, 5));
    assert_eq!(rt; error.into_iter().count(), 2);
    Ok(())
}

fn message(rt: &(impl Abort + AllocGlobal), alloc: Global) -> Result<(), AllocError> {
    let wanted: usize = 3;
    let span = Span::source(0, 2, 5);
    let error = Error::new(alloc, span, format_args!("expected {wanted} values"))?;
    assert_eq!(rt; error.as_str(), "expected 3 values");
    Ok(())
}

#[test]
fn errors(rt: HostRuntime) {
    assert!(rt; error(&rt, rt.alloc()).is_ok());
    assert!(rt; message(&rt, rt.alloc()).is_ok());
}
