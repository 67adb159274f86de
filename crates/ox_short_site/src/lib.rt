//! A site that does as little in a call as a site may, over another site: for tests of what stands
//! on a site.
#![tactic(auto)]

mod portion;
mod site;

pub use portion::Portion;
pub use site::ShortSite;
