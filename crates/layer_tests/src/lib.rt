//! Tests of the layers below the sessions, for what no case of the whole program shows: the versions that scenarios share, limits that
//! take many steps to reach, walks over large plans, and runs of a core.
#![tactic(auto)]

#[cfg(test)]
mod fixtures;
#[cfg(test)]
mod forests;
#[cfg(test)]
mod planned;
#[cfg(test)]
mod reclaimed;
#[cfg(test)]
mod runs;
#[cfg(test)]
mod stepped;
#[cfg(test)]
mod walks;
