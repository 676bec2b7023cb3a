//! What holds of every move of cash, and of every day that is closed, that no rule of the books denies. The functions
//! do nothing; their contracts are the laws.

ghost use Rattle.drawers.specs.Laws.{CloseDayKeepsBooks, DrawerOffKeepsBooks, DrawerOnKeepsBooks, MoveCashKeepsBooks};

/// Where the books hold, they hold after a drawer is put on, too.
pub fn drawer_on_keeps_books()
    ensures { DrawerOnKeepsBooks }
{}

/// Where the books hold, they hold after a drawer is put off, too.
pub fn drawer_off_keeps_books()
    ensures { DrawerOffKeepsBooks }
{}

/// Where the books hold, they hold after cash is moved, too.
pub fn move_cash_keeps_books()
    ensures { MoveCashKeepsBooks }
{}

/// Where the books hold, they hold after the day of a branch is closed, too.
pub fn close_day_keeps_books()
    ensures { CloseDayKeepsBooks }
{}
