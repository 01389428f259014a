//! Facts about sets that prove with the line below: what users state of permissions, schedules, parsers, features and
//! what they need, messages, versions, configurations, texts in JSON, alarms, a council and its votes, partitions,
//! slices of elements and counts. Most are over one enum: in place in a small integer, in 64 bits or in two words, with
//! gaps, or with masks. Besides that line, loops have an invariant, a few functions name a ruleset or a definition to
//! unfold of their own, and eleven have a proof, four of them about what features need in turn.
#![tactic(auto, using(enumset::specs::Sets::set_laws))]

pub mod access;
pub mod alarms;
pub mod capabilities;
pub mod chains;
pub mod changes;
pub mod choices;
pub mod collections;
pub mod configs;
pub mod counts;
pub mod dangers;
pub mod enabling;
pub mod features;
pub mod flags;
pub mod lists;
pub mod meetings;
pub mod messages;
pub mod needs;
pub mod parsing;
pub mod partitions;
pub mod permissions;
pub mod plant;
pub mod prices;
pub mod schedules;
pub mod seats;
pub mod settings;
pub mod slices;
pub mod sorted;
pub mod stages;
pub mod texts;
pub mod tokens;
pub mod versions;
pub mod votes;
pub mod walks;
pub mod weekdays;
