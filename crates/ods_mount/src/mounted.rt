//! A sound image with its layout.
ghost use Rattle.std.specs.Prelude.{◌≡◌, IfOk, IfErr};
ghost use Rattle.ods_space.specs.{Disks.on, Draft.applied, Layout.with_places};
ghost use Rattle.ods_mount.specs.Sound.{IsSoundBy};

use ods_base::{FixedImage, Image};
use ods_space::{Disk, Draft, Layout};
use std::alloc::AllocError;
use std::marker::Model;

/// A sound image with its layout.
#[derive(Drop)]
pub struct Mounted {
    image: Image,
    layout: Layout,
}

impl Model for Mounted {
    ghost use Rattle.ods_space.specs.Layout.{Disk};
    ghost use Rattle.ods_mount.specs.Sound.{IsSoundBy};

    ghost Value = { Disk };

    ghost view = { λ m. record { image = m.image; layout = m.layout } };

    ghost invariant = { λ m. IsSoundBy m.image m.layout };
}

impl Mounted {
    ghost use Rattle.ods_mount.specs.{Checks.IsChecked, Faults.IsSound};

    /// An image that passed each check, with its layout.
    pub(crate) fn new(image: Image, layout: Layout) -> Mounted
        requires { IsChecked image layout }
        ensures { (result.image ≡ image) × (result.layout ≡ layout) }
    {
        Mounted { image, layout }
    }

    /// Makes a volume of a sound image and its layout.
    pub fn of(image: Image, layout: Layout) -> Mounted
        requires { IsSoundBy image layout }
        ensures { (result.image ≡ image) × (result.layout ≡ layout) }
    {
        Mounted { image, layout }
    }

    /// Returns an equal volume that changes separately. An image over a fixed one shares its base; an image that is alone with its blocks is copied.
    pub fn copy(&self) -> Result<Mounted, AllocError>
        ensures { IfOk result (λ copy. copy ≡ self.now) }
    {
        let image = self.image.copy()?;
        let layout = self.layout.copy()?;
        Ok(Mounted { image, layout })
    }

    /// Returns the image. No fault holds for it.
    pub fn image(&self) -> &Image
        ensures value { result.now ≡ self.now.image }
        ensures sound { IsSoundBy self.now.image self.now.layout }
        ensures no_fault { IsSound self.now.image }
    {
        &self.image
    }

    /// Returns the layout of the image.
    pub fn layout(&self) -> &Layout
        ensures value { result.now ≡ self.now.layout }
        ensures sound { IsSoundBy self.now.image self.now.layout }
    {
        &self.layout
    }

    /// Returns the image with its layout.
    pub fn disk(&self) -> Disk<'_>
        ensures image { result.image.now ≡ self.now.image }
        ensures layout { result.layout.now ≡ self.now.layout }
        ensures sound { on IsSoundBy result }
    {
        Disk {
            image: &self.image,
            layout: &self.layout,
        }
    }

    /// Writes the blocks of a draft, and appends these LBNs to the blocks of INDEXF.SYS in the layout. The result must be a sound volume. It
    /// allocates no memory.
    pub fn apply(&mut self, draft: Draft, places: &[u32])
        requires sound { IsSoundBy (applied self.old.image draft) (with_places self.old.layout places.now) }
        ensures changed { self.new ≡ record { image = applied self.old.image draft; layout = with_places self.old.layout places.now } }
    {
        draft.apply(&mut self.image);
        self.layout.grow(places);
    }

    /// Returns the image and its layout.
    pub fn into_parts(self) -> (Image, Layout)
        ensures value { (result.0 ≡ self.image) × (result.1 ≡ self.layout) }
        ensures sound { IsSoundBy self.image self.layout }
    {
        (self.image, self.layout)
    }

    /// Splits the image into a fixed one and an equal image over it, with reserved room to change each block, and returns the layout too. When out of
    /// memory, it returns the volume unchanged.
    pub fn split(self) -> Result<(FixedImage, Image, Layout), Mounted>
        ensures ok { IfOk result (λ parts. (parts.0 ≡ self.image) × (parts.1 ≡ self.image) × (parts.2 ≡ self.layout)) }
        ensures sound { IsSoundBy self.image self.layout }
        ensures err { IfErr result (λ mounted. mounted ≡ self) }
    {
        match self.image.split() {
            Ok((fixed, image)) => Ok((fixed, image, self.layout)),
            Err(image) => Err(Mounted {
                image,
                layout: self.layout,
            }),
        }
    }
}
