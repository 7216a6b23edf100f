//! A law of compiled images: the function's contract is the law, and the function only cites the one that it rests on.

ghost use Rattle.pcc_driver.specs.Stops.{ImagesNeverStop};

use map_lines::map_lists_locals;

/// The machine never stops over the image of a typed program, whatever bytes its input has and however many steps it makes.
pub fn images_never_stop()
    ensures { ImagesNeverStop }
{
    map_lists_locals();
}
