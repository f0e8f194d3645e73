// What is said of a table: yes; or no, with a state. told gives document 01's numbers for each case, and those of a refusal.
#[derive(Clone, Copy)]
pub enum Verdict {
    Yes,
    No(usize),
}
