//! What pages through that which is taken, while files are loaded.
use crate::meanwhile::Meanwhile;
use std::sync::Wait;

/// Pages, in a thread of its own, through what a follower's taker takes.
pub trait Pager {
    /// It can page.
    ghost can_page: { Self → Type 0 };

    /// It has paged.
    ghost has_paged: { Self → Self → Type 0 };

    /// Pages until the loaders have ended, or not so long.
    fn page_while<H: Wait>(&mut self, rt: &H, meanwhile: &Meanwhile)
        requires { can_page self.old }
        ensures { has_paged self.old self.new };
}
