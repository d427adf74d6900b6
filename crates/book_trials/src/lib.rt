// Rules as text, good and damaged, read by `book_text`.
#![tactic(auto)]

#[cfg(test)]
mod tests;
