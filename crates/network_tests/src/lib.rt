// Worked networks, texts, certificates and command lines through public calls alone, one file a crate; the texts of
// `commands` go through the evaluator and the recordings too. A crate with tests is proved once more for them, so
// those of the crates above the routines stand together here.
#![tactic(auto)]

#[cfg(test)]
mod certificate_texts;
#[cfg(test)]
mod certificates;
#[cfg(test)]
mod commands;
#[cfg(test)]
mod curve_drafts;
#[cfg(test)]
mod devices;
#[cfg(test)]
mod drafts;
#[cfg(test)]
mod networks;
#[cfg(test)]
mod stored_files;
#[cfg(test)]
mod texts;
