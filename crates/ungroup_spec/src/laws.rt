//! Laws of the operation. A law is what a function without parameters ensures; there is nothing to run.
ghost use Rattle.ungroup_spec.specs.Groups.{TestTellsGroup};
ghost use Rattle.ungroup_spec.specs.KeepsNets.{DoneIsUngroup, EachIsAnImage, EffectiveStays, ImagesAreConnected, ImagesDiffer, InstancesAreKept, NamesAreMoved, NotesAreMoved, OccurrencesAreCarried, PinsAreCarried, RepresentativesAreCarried, TheRestIsGone, ValidStays};
ghost use Rattle.ungroup_spec.specs.Needs.{UngroupIsLocal};
ghost use Rattle.ungroup_spec.specs.Ungroup.{DoneDissolves};
ghost use Rattle.ungroup_spec.specs.Worked.{FeedthroughIsUngrouped, PairIsUngrouped};

/// Where nothing refuses the operation, the instance with that name is dissolved.
pub fn done_dissolves()
    ensures { DoneDissolves }
{}

/// The operation is local: two designs that agree on what it needs have one rule; what it writes it needs; it keeps a valid design valid.
pub fn ungroup_is_local()
    ensures { UngroupIsLocal }
{}

/// The test whether two nets are of one group tells it.
pub fn test_tells_group()
    ensures { TestTellsGroup }
{}

/// In a valid design an operation that nothing refuses dissolves the instance with that name: all the laws below hold for what it
/// leaves.
pub fn done_is_ungroup()
    ensures { DoneIsUngroup }
{}

/// The path map is one-to-one and onto; of the paths that lead somewhere it leaves out those that end at the instance, and no other.
pub fn paths_are_mapped()
    ensures differ { ImagesDiffer }
    ensures onto { EachIsAnImage }
    ensures gone { TheRestIsGone }
{}

/// The design afterwards is valid.
pub fn valid_stays()
    ensures { ValidStays }
{}

/// Below the top each occurrence that stays keeps its effective properties.
pub fn effective_stays()
    ensures { EffectiveStays }
{}

/// The occurrences afterwards are those before that have an image, each once, in the same order, and of the same cells.
pub fn occurrences_are_carried()
    ensures { OccurrencesAreCarried }
{}

/// The instance at the end of a path keeps its cell, designator and properties. The identifiers along a path are those before, with
/// two steps as one where it goes through the instance, and so are the paths of the notes; those that end at the instance are gone.
pub fn instances_and_notes_are_kept()
    ensures insts { InstancesAreKept }
    ensures names { NamesAreMoved }
    ensures notes { NotesAreMoved }
{}

/// Two nets are connected exactly where their images are, below every root. So the representative of a net's image is the image of
/// its representative.
pub fn nets_are_carried()
    ensures connected { ImagesAreConnected }
    ensures first { RepresentativesAreCarried }
{}

/// A pin has a net afterwards exactly where it had one, and it is that net's image.
pub fn pins_are_carried()
    ensures { PinsAreCarried }
{}

/// Two nets that are joined through the dissolved instance become one, which has the ends of both.
pub fn feedthrough_is_ungrouped()
    ensures { FeedthroughIsUngrouped }
{}

/// The note for what was inside moves up with it.
pub fn pair_is_ungrouped()
    ensures { PairIsUngrouped }
{}
