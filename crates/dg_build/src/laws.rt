//! A law of the values that are built.
ghost use Rattle.dg_build.specs.Built.{GameObjectsSayTheirPaths, CollectionsSayTheirPaths};

/// What an output `build` gives says its path: for a game object a project path that ends in `.go`, and for a
/// collection one that ends in `.collection`. So the path of a value tells which of them it is, and its stem is that
/// path without the ending.
pub fn builds_say_their_paths()
    ensures game_objects { GameObjectsSayTheirPaths }
    ensures collections { CollectionsSayTheirPaths }
{}
