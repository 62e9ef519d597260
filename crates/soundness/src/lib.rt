// Sound tables, number 2 of the refusals, as definitions: `specs/Sound` says what is sound.
// The crates sound_numbers and sound_lengths decide what goes by numbers and lengths alone, sound_stores, sound_clients and sound_records
// each a part of the tables, and sound_tables all of it.
#![tactic(auto)]
