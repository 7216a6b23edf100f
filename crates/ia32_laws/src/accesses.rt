ghost use Rattle.ia32_laws.specs.AccessesLaws.{FramePuts, LoadPuts, ElementStores, PlaceStores};
ghost use Rattle.ia32_laws.specs.AccessesOps.{FrameFollows, StaticFollows, GetFollows, PutFollows, LoadFollows};
ghost use Rattle.ia32_laws.specs.AccessesOps.{StoreFollows};

/// The address of a place of the frame comes to a place, and so does an element in memory, with its sign; the low
/// bits of the word of a place go to an address, which is in EDI or that of any memory.
pub fn rows_move_elements()
    ensures address { FramePuts }
    ensures load { LoadPuts }
    ensures store { ElementStores }
    ensures store_directly { PlaceStores }
{}

/// Where a state of the machine shows one of the program at an op that takes the address of a frame array or of a
/// static object, the machine follows the op's step through its row, over any placement that supports the graph.
pub fn addresses_are_followed()
    ensures frame { FrameFollows }
    ensures static_object { StaticFollows }
{}

/// It follows the ops on static objects of one element.
pub fn objects_are_followed()
    ensures get { GetFollows }
    ensures put { PutFollows }
{}

/// It follows loads and stores of elements of arrays of any depth and of static objects, and their traps: where there
/// is no array, or no such element.
pub fn accesses_are_followed()
    ensures load { LoadFollows }
    ensures store { StoreFollows }
{}
