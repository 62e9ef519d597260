// In which order a step is refused, and the public steps, as definitions in specs/. The crate refusal_tests has the functions that tell the
// number, so that an edit of a definition proves definitions alone.
#![tactic(auto)]
