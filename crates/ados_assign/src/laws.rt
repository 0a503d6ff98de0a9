// The laws of resolving paths, over its definitions.
ghost use Rattle.ados_assign.specs.FullPaths.{FullPathsLeadBack, GivenPathsLeadBack, WrittenPlacesAreTheSame};

/// A full path resolves to its place, whatever the assigns and the current directory are. It is so for each object of
/// the files whose names may be used in a path, if its path is not too long for one: with its names as they are given,
/// the path leads to the place with just these names; with its names as they are written in the files, it leads to the
/// place as it is written there, and that is the same place.
pub fn full_paths_lead_back()
    ensures given { GivenPathsLeadBack }
    ensures same_place { WrittenPlacesAreTheSame }
    ensures full { FullPathsLeadBack }
{}
