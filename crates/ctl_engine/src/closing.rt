//! Block pools that close: the objects in them are gone (RM 13.11).

ghost use Rattle.std.specs.Prelude.{◌≡◌, ◌<◌, length};
ghost use Rattle.ctl_frames.specs.declared.frame.Owned.{Owned};
ghost use Rattle.ctl_engine.specs.Closing.{ClosesIfPool, ClosesNew};
ghost use Rattle.ctl_engine.specs.Initializing.{IsNewest};

use crate::engine::Engine;
use ctl_frames::frame::Declared;

impl Engine {
    /// Closes the pool that the object of this number is, if it is one: the objects in it are gone (RM 13.11).
    #[inline(always)]
    pub fn close_if_pool(&mut self, number: u64)
        ensures closed { ClosesIfPool number self.old.stock self.new.stock }
        ensures same { self.new ≡ record self.old { stock = self.new.stock } }
    {
        if self.stock.pool(number).is_some() && self.stock.exists(number) {
            self.stock.close_pool(number);
        }
    }

    /// Closes the newest owned object, whose creation has failed, if it is declared as a pool (RM 13.11).
    pub fn close_newest(&mut self, declared: Declared)
        requires { 0 < length self.old.owned.items }
        ensures closed { (o : Owned) → IsNewest self.old o → ClosesNew declared o.number self.old.stock self.new.stock }
        ensures same { self.new ≡ record self.old { stock = self.new.stock } }
    {
        if let Declared::Pool = declared {
            let pool = self.newest_object().number;
            self.stock.close_pool(pool);
        }
    }
}
