// The C interface of the library: every exported function, thin.
#![tactic(auto)]

mod batches; // batches.rt: the check of a batch
mod checks; // checks.rt: the fields and rules of a file
mod days; // days.rt: dates, day numbers, weekdays, weeks, holidays, day signs
mod desk; // desk.rt: the counter's questions: a sale, many, a stop by its name
mod files; // files.rt: the records of a file, the stretch of a field, the writer; the version
mod hints; // hints.rt: the maker of the hint
mod lent; // lent.rt: the thirteen files as C lends them
mod questions; // questions.rt: whether a trip runs, a trip's stops
