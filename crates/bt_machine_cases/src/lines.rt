// Printed lines of words and numbers.
use bt_sheet::Result;

/// Appends a line of one word.
pub fn put_word(word: &str, out: &mut String) -> Result<()> {
    put_numbers(">", &[], out)?;
    put_line(word, &[], out)
}

/// Appends a line of one number.
pub fn put_number(number: u32, out: &mut String) -> Result<()> {
    write!(out, ">{number}\n")?;
    Ok(())
}

/// Appends a text and each number behind a blank, and ends the line.
pub fn put_line(text: &str, numbers: &[u32], out: &mut String) -> Result<()> {
    put_numbers(text, numbers, out)?;
    end_line(out)
}

/// Appends a text and each number behind a blank.
pub fn put_numbers(text: &str, numbers: &[u32], out: &mut String) -> Result<()> {
    out.push_str(text)?;
    for number in numbers {
        write!(out, " {number}")?;
    }
    Ok(())
}

/// Ends the line.
pub fn end_line(out: &mut String) -> Result<()> {
    out.push('\n')?;
    Ok(())
}
