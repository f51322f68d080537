//! How rows are asked, and answers put together.
use std::alloc::Global;
use std::test::Fail;

/// What is asked of the inputs of rows, where no runtime is needed for an answer.
pub trait Question {
    /// Puts the answer to an input behind a text.
    fn put_answer(&self, alloc: Global, input: &str, out: &mut String) -> Result<(), Fail>;
}

/// Puts a text behind another.
pub fn put_str(out: &mut String, text: &str) -> Result<(), Fail> {
    Ok(out.push_str(text)?)
}

/// The same where no failure is told. Where there is no memory for the text it is left out, and the row's answer is another one than is due.
pub fn put(out: &mut String, text: &str) {
    let _ = out.push_str(text);
}

/// Fails with a text where it isn't the one that is due.
pub fn expect(got: &str, due: &str) -> Result<(), Fail> {
    if got == due {
        return Ok(());
    }
    Err(Fail::new(got))
}

// Fails with a row and its answer, where this isn't the one that is due. The row's input and the answer that is due stand on both sides of the mark.
fn ask<F: Fn(Global, &str, &mut String) -> Result<(), Fail>>(
    alloc: Global,
    row: &str,
    mark: &str,
    answer: &F,
) -> Result<(), Fail>
    requires { F.IsAlwaysCallable answer.now }
{
    let Some((input, due)) = row.split_once(mark) else {
        return Err(Fail::new(row));
    };
    let mut got = String::new(alloc);
    answer(alloc, input, &mut got)?;
    if got.as_str() == due {
        return Ok(());
    }
    Err(Fail::new(format_args!("{input}{mark}{}", got.as_str())))
}

/// Asks for the answer to the input of each row, which is put behind a text. It fails at the first row whose answer is another one than the row says, and where
/// there are more or fewer rows than this. One mark parts the rows, and another the input of a row from its answer.
pub fn each_row<F: Fn(Global, &str, &mut String) -> Result<(), Fail>>(
    alloc: Global,
    rows: &str,
    between: &str,
    mark: &str,
    count: usize,
    answer: F,
) -> Result<(), Fail>
    requires { F.IsAlwaysCallable answer }
{
    for row in rows.split(between) {
        ask(alloc, row, mark, &answer)?;
    }
    if rows.split(between).count() == count {
        return Ok(());
    }
    Err(Fail::new("another number of rows"))
}

fn each_asked<Q: Question>(
    alloc: Global,
    rows: &str,
    between: &str,
    mark: &str,
    count: usize,
    question: &Q,
) -> Result<(), Fail> {
    each_row(alloc, rows, between, mark, count, |alloc, input, out| {
        question.put_answer(alloc, input, out)
    })
}

/// Asks a question of each line, which is `input = answer`, as `each_row` does.
pub fn each_line<Q: Question>(
    alloc: Global,
    lines: &str,
    count: usize,
    question: &Q,
) -> Result<(), Fail> {
    each_asked(alloc, lines, "\n", " = ", count, question)
}

/// The same of blocks with an empty line between them, in each of which a line `=` parts the input from the answer.
pub fn each_block<Q: Question>(
    alloc: Global,
    blocks: &str,
    count: usize,
    question: &Q,
) -> Result<(), Fail> {
    each_asked(alloc, blocks, "\n\n", "\n=\n", count, question)
}
