//! Tests of the libraries, of what no script and no request can show: streams that fail, are
//! interrupted and would wait, which runs of pages are merged, searches in steps, workers that wait
//! for each other, what calls give and give back, and calls of the library that the program doesn't
//! make. Calls that change or consume what they are given are made again after a refused allocation
//! (`desks`), for `tests/refusals.py`. The rows of `proofs/WorkedRows.antt` show definitions.
#![tactic(auto)]

#[cfg(test)]
mod answers;
#[cfg(test)]
mod books;
#[cfg(test)]
mod calls;
#[cfg(test)]
mod connections;
#[cfg(test)]
mod conversations;
#[cfg(test)]
mod crawls;
#[cfg(test)]
mod desk_faults;
#[cfg(test)]
mod desks;
#[cfg(test)]
mod fetcher;
#[cfg(test)]
mod fetches;
#[cfg(test)]
mod indexes;
#[cfg(test)]
mod lists;
#[cfg(test)]
mod menus;
#[cfg(test)]
mod opening;
#[cfg(test)]
mod pages;
#[cfg(test)]
mod recorded;
#[cfg(test)]
mod requests;
#[cfg(test)]
mod settings;
#[cfg(test)]
mod stream;
#[cfg(test)]
mod streams;
#[cfg(test)]
mod trees;
#[cfg(test)]
mod workers;
