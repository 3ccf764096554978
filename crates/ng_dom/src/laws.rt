//! The laws of the drawing: an edit of one node is a change at one place of what stands.
ghost use Rattle.ng_dom.specs.Laws.{AttributesWritten, BodiesAreHomed, FewerAreLive, FoundStand, GroupsChanged, GroupsStandApart, HoldsCut, HoldsEmptied, HoldsInserted, HoldsSame, HomesStay, LiveNamesAreGiven, LiveNodesHaveHomes, NamesAreCounted, NamesAreGone, NamesAreLive, NamesStand, NewNamesAreSpared, NewNamesStandApart, NothingWritten, OneReading, PlacesArePrinted, PlacesStand, TextWritten};

/// A key has a new text: to write the text of its node is to draw what stands anew.
pub fn text_written()
    ensures { TextWritten }
{}

/// A block has other bodies: to change the groups of its anchor is to draw what stands then.
pub fn groups_changed()
    ensures { GroupsChanged }
{}

/// A key shows something else: to draw the attributes of its element anew is to draw what stands anew.
pub fn attributes_written()
    ensures { AttributesWritten }
{}

/// A key that is drawn nowhere shows something else: all nodes stay as they are.
pub fn nothing_written()
    ensures { NothingWritten }
{}

/// What is live, and what it is drawn from: the name of a live node was given, and nodes that go leave the others as they were.
pub fn homes_stay()
    ensures homes { LiveNodesHaveHomes }
    ensures given { LiveNamesAreGiven }
    ensures live { FewerAreLive }
    ensures stay { HomesStay }
    ensures bodies { BodiesAreHomed }
{}

/// What stands has its names whatever is shown, and a document has a node for each name. [`crate::dom::Dom::live`] counts the
/// live nodes by them.
pub fn names_are_counted()
    ensures stand { NamesStand }
    ensures counted { NamesAreCounted }
{}

/// Each name of what is read is live, none of what is gone is, and where names differ, those of an anchor's groups do.
pub fn names_tell_nodes()
    ensures live { NamesAreLive }
    ensures gone { NamesAreGone }
    ensures groups { GroupsStandApart }
{}

/// Where nothing stands apart, nothing does after a change of what is shown, after the nodes of a group are gone and the group is
/// taken out, and after all that was built apart has become a group.
pub fn nothing_stands_apart()
    ensures same { HoldsSame }
    ensures emptied { HoldsEmptied }
    ensures cut { HoldsCut }
    ensures inserted { HoldsInserted }
{}

/// A table has one forest under given names.
pub fn one_reading()
    ensures { OneReading }
{}

/// What was read before a name was given isn't changed by a change of the node of that name.
pub fn new_names_stand_apart()
    ensures { NewNamesStandApart }
{}

/// What was read before some names were given holds none of them.
pub fn new_names_are_spared()
    ensures { NewNamesAreSpared }
{}

/// The node at a path is printed there.
pub fn places_are_printed()
    ensures { PlacesArePrinted }
{}

/// A node at a path stands in the document.
pub fn places_stand()
    ensures { PlacesStand }
{}

/// An element with an id stands in the document.
pub fn found_stand()
    ensures { FoundStand }
{}
