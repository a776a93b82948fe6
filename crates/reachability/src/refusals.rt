// The refusals of the calls on a model.

// Why a sweep or a judge is refused, and by which number: 11, the model breaks a rule; 12, it has no such direction or guard; 13, a
// list has another length than K + 1; 14, growth, and the first step that has it.
#[derive(Clone, Copy, Debug, PartialEq, Eq)]
pub enum CallRefusal {
    Invalid,
    Missing,
    WrongLength,
    Growth(usize),
}
