// Calls the library on document 01's examples, on bad input and at the limits, and prints a line for each figure expected of a case.

#![tactic(auto)]

mod build_cases;
mod check_cases;
mod count_cases;
mod estimate_cases;
mod journal_cases;
mod lists;
mod report;
mod search_cases;
mod word_cases;
mod worksheet_cases;

fn main(rt: HostRuntime) {
    let out = rt.stdout();
    count_cases::run(&out);
    word_cases::run(&out);
    build_cases::run(&out);
    check_cases::run(&out);
    estimate_cases::run(&out);
    search_cases::run(&out);
    worksheet_cases::run(&out);
    journal_cases::run(&out);
}
